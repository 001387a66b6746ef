//! What chains of calls are, and what they do. The functions are empty: their contracts are laws.
ghost use Rattle.std.specs.Prelude.{◌≡◌, ◌↔◌, ◌<◌, ◌∷◌, ◌++◌, List, [], ℕ, false, true};
ghost use Rattle.bh_base.specs.Steps.{Step, Read, meets_end, Entry, Logs, entries, OnlyReads, OnlyWrites, Chain, Either, ReadChainFacts, WriteChainFacts, ChainFacts};

use crate::{Port, Sink, Source};

/// Chains of a source's calls: the empty one, each read, and two joined, of which the second begins where the first ends.
pub fn source_chains<S: Source>()
    ensures empty { (s : _) → Chain S.read_step s [] s }
    ensures one { (s : _) (t : _) (x : Step) → S.read_step s x t → Chain S.read_step s (x ∷ []) t }
    ensures joined { (s : _) (t : _) (u : _) (front back : List Step) → Chain S.read_step s front t
        → Chain S.read_step t back u → Chain S.read_step s (front ++ back) u }
{}

/// Chains of a sink's calls: the empty one, each write, and two joined.
pub fn sink_chains<S: Sink>()
    ensures empty { (s : _) → Chain S.write_step s [] s }
    ensures one { (s : _) (t : _) (x : Step) → S.write_step s x t → Chain S.write_step s (x ∷ []) t }
    ensures joined { (s : _) (t : _) (u : _) (front back : List Step) → Chain S.write_step s front t
        → Chain S.write_step t back u → Chain S.write_step s (front ++ back) u }
{}

/// Chains of a port: the empty one, each read, each write, two joined, and those of its two halves.
pub fn port_chains<P: Port>()
    ensures empty { (s : _) → Chain (Either P.read_step P.write_step) s [] s }
    ensures read { (s : _) (t : _) (x : Step) → P.read_step s x t → Chain (Either P.read_step P.write_step) s (x ∷ []) t }
    ensures write { (s : _) (t : _) (x : Step) → P.write_step s x t → Chain (Either P.read_step P.write_step) s (x ∷ []) t }
    ensures joined { (s : _) (t : _) (u : _) (front back : List Step) → Chain (Either P.read_step P.write_step) s front t
        → Chain (Either P.read_step P.write_step) t back u → Chain (Either P.read_step P.write_step) s (front ++ back) u }
    ensures reads { (s : _) (t : _) (steps : List Step) → Chain P.read_step s steps t
        → Chain (Either P.read_step P.write_step) s steps t }
    ensures writes { (s : _) (t : _) (steps : List Step) → Chain P.write_step s steps t
        → Chain (Either P.read_step P.write_step) s steps t }
{}

/// A call meets the end exactly where it is a read with room for a byte that takes none.
pub fn end_law()
    ensures { (x : Step) → (meets_end x ≡ true) ↔ ((room : ℕ) × (0 < room) × (x ≡ Read room [])) }
{}

/// What reads did together: the bytes that they took come off the front of `left`, where that is told, and the count of
/// faults rose where one failed, and else stayed.
pub fn source_chain_law<S: Source>()
    ensures { (s : _) (t : _) (steps : List Step) → Chain S.read_step s steps t
        → ReadChainFacts S.left S.read_faults S.ended s steps t }
{}

/// What writes did together: the bytes that went out are added to the end of `sent`, where that is told, and the count of
/// faults rose where one failed, and else stayed.
pub fn sink_chain_law<S: Sink>()
    ensures { (s : _) (t : _) (steps : List Step) → Chain S.write_step s steps t
        → WriteChainFacts S.sent S.write_faults s steps t }
{}

/// A chain of a port takes from the front of `left`, and adds to the end of `sent` and to `log`, where they are told. Each
/// count of faults rose where a call of its kind failed, and else stayed.
pub fn port_chain_law<P: Port>()
    ensures { (s : _) (t : _) (steps : List Step) → Chain (Either P.read_step P.write_step) s steps t
        → ChainFacts P.left P.sent P.read_faults P.write_faults P.ended P.log s steps t }
{}

/// A chain of a port's reads leaves the sink's half. It adds to the log the bytes of each read that didn't fail, and nothing else.
pub fn read_chain_law<P: Port>()
    ensures leaves { (s : _) (t : _) (steps : List Step) → Chain P.read_step s steps t
        → (P.sent t ≡ P.sent s) × (P.write_faults t ≡ P.write_faults s) }
    ensures logs { (s : _) (t : _) (steps : List Step) → Chain P.read_step s steps t
        → OnlyReads steps × Logs (P.log s) (P.log t) (entries steps) }
{}

/// A chain of a port's writes leaves the source's half. It adds to the log the bytes of each write that didn't fail, and nothing
/// else.
pub fn write_chain_law<P: Port>()
    ensures leaves { (s : _) (t : _) (steps : List Step) → Chain P.write_step s steps t
        → (P.left t ≡ P.left s) × (P.read_faults t ≡ P.read_faults s) × (P.ended t ≡ P.ended s) }
    ensures logs { (s : _) (t : _) (steps : List Step) → Chain P.write_step s steps t
        → OnlyWrites steps × Logs (P.log s) (P.log t) (entries steps) }
{}
