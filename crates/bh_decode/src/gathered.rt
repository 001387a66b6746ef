//! A message that is gathered from what a decoder hands out.
ghost use Rattle.std.specs.Prelude.{◌≡◌, ◌<◌, ◌∷◌, [], List, Some, IfOk, IfErr, OnOk, length};
ghost use Rattle.bh_spec.specs.Items.{Head as head_type, interim_response, head, trailer_section};
ghost use Rattle.bh_spec.specs.Messages.{Message as message_type, Field as field_type, IsValid};
ghost use Rattle.bh_model.specs.Values.{IsEnded};
ghost use Rattle.bh_decode.specs.Gathering.{IsGathered, Adds, Gathers, IsRefusal, AreParts};

use crate::control::own_some;
use crate::spelling::ReadError;
use bh_base::NoMemory;
use bh_model::{Bytes, Control, Fields, Interim, Interims, Message};
use bh_push::{Decoder, Pushed};
use std::alloc::Global;

/// What came of a message so far.
#[derive(Drop)]
pub struct Gathered {
    pub interims: Interims,
    pub control: Option<Control>,
    pub status: Option<u16>,
    pub fields: Fields,
    pub content: Vec<u8>,
    pub trailers: Fields,
}

impl Gathered {
    /// Nothing yet.
    pub fn new(alloc: Global) -> Result<Gathered, NoMemory>
        ensures { IfOk result (λ gathered. IsGathered gathered []) }
    {
        let fields = Fields::with_room(alloc, 0, 0)?;
        let trailers = Fields::with_room(alloc, 0, 0)?;
        Ok(Gathered {
            interims: Interims::none(alloc),
            control: None,
            status: None,
            fields,
            content: Vec::new(alloc),
            trailers,
        })
    }

    /// Pushes a piece that isn't empty, and takes what comes of it. It answers how many bytes were taken.
    pub fn take(
        &mut self,
        alloc: Global,
        decoder: &mut Decoder,
        piece: &[u8],
    ) -> Result<usize, ReadError>
        requires { 0 < length piece.now }
        ensures taken { IfOk result (λ taken. Gathers decoder.old self.old piece.now taken decoder.new self.new) }
        ensures refused { IfErr result (IsRefusal decoder.old piece.now decoder.new) }
    {
        match decoder.push(piece) {
            Pushed::Need => Ok(piece.len()),
            Pushed::Interim { taken, status } => {
                self.add_interim(alloc, status, decoder.fields())?;
                Ok(taken)
            }
            Pushed::Head { taken } => {
                self.take_head(alloc, decoder)?;
                Ok(taken)
            }
            Pushed::Content { taken, bytes } => {
                self.content.extend_from_slice(bytes)?;
                Ok(taken)
            }
            Pushed::Trailers { taken } => {
                self.take_trailers(alloc, decoder.fields())?;
                Ok(taken)
            }
            Pushed::Refused(refusal) => Err(ReadError::Refused(refusal)),
        }
    }

    /// Adds an interim response.
    fn add_interim(&mut self, alloc: Global, status: u16, fields: &Fields) -> Result<(), NoMemory>
        requires { IsEnded fields.now }
        ensures { OnOk result (Adds self.old (interim_response status fields.now.lines ∷ []) self.new) }
    {
        let fields = fields.copy(alloc)?;
        self.interims.push(Interim { status, fields })?;
        Ok(())
    }

    /// Takes the head that the decoder shows.
    fn take_head(&mut self, alloc: Global, decoder: &Decoder) -> Result<(), NoMemory>
        ensures { (of : head_type) (fields : List field_type)
            → decoder.now.head ≡ Some of → decoder.now.lines ≡ Some fields
            → OnOk result (Adds self.old (head of fields ∷ []) self.new) }
    {
        let fields = decoder.fields().copy(alloc)?;
        let control = own_some(alloc, decoder.control())?;
        self.fields = fields;
        self.control = control;
        self.status = decoder.status();
        Ok(())
    }

    /// Takes a trailer section.
    fn take_trailers(&mut self, alloc: Global, fields: &Fields) -> Result<(), NoMemory>
        requires { IsEnded fields.now }
        ensures { OnOk result (Adds self.old (trailer_section fields.now.lines ∷ []) self.new) }
    {
        self.trailers = fields.copy(alloc)?;
        Ok(())
    }

    /// The message of which these are the parts.
    pub fn message(self, alloc: Global) -> Result<Message, NoMemory>
        requires { (m : message_type) × IsValid m × AreParts self m }
        ensures { IfOk result (λ message. (m : message_type) → IsValid m → AreParts self m → message ≡ m) }
    {
        let Gathered {
            interims,
            control,
            status,
            fields,
            content,
            trailers,
        } = self;
        let content = Bytes::from_slice(alloc, content.as_slice())?;
        if let Some(control) = control {
            return match Message::request(control, fields, content, trailers) {
                Ok(message) => Ok(message),
                Err(_) => unreachable!(),
            };
        }
        let Some(status) = status else { unreachable!() };
        match Message::response(interims, status, fields, content, trailers) {
            Ok(message) => Ok(message),
            Err(_) => unreachable!(),
        }
    }
}
