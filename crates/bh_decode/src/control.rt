//! Control data at the front of bytes.
ghost use Rattle.std.specs.Prelude.{◌≡◌, ◌≤◌, ◌^◌, [], length, option_map, IfOk, IfErr};
ghost use Rattle.bh_spec.specs.Bounds.{no_bounds};
ghost use Rattle.bh_model.specs.Values.{control_of, control_lent};
ghost use Rattle.bh_spec.specs.Pieces.{Ends};
ghost use Rattle.bh_control.specs.Control.{ControlOf};
ghost use Rattle.bh_decode.specs.Stops.{StopsAt, AtStop};

use crate::fault::Fault;
use crate::stop::Stop;
use bh_base::NoMemory;
use bh_control::{ControlReader, ControlStep};
use bh_model::{Bytes, Control, ControlView, Limits};
use std::alloc::Global;

/// Control data that was read, and how many bytes its text has.
#[derive(Drop)]
pub struct ControlData {
    pub control: Control,
    pub taken: usize,
}

/// Reads control data, and answers how many bytes it has. It is then that of the reader.
pub fn read_with(reader: &mut ControlReader, bytes: &[u8]) -> Result<usize, Stop>
    ensures whole { IfOk result (λ taken. Ends (ControlOf reader.old.limits reader.new.control) [] bytes.now taken) }
    ensures stops { IfErr result (StopsAt (ControlOf reader.old.limits) (ControlOf no_bounds) bytes.now) }
{
    reader.begin();
    match reader.push(bytes) {
        ControlStep::Whole { taken } => Ok(taken),
        ControlStep::Need => Err(Stop::Ended {
            part: reader.next_part(),
        }),
        ControlStep::Dead { offset, part } => Err(Stop::Dead { at: offset, part }),
        ControlStep::Limit { offset, part } => Err(Stop::Limit { at: offset, part }),
    }
}

/// A copy of the control data, if there is some.
pub fn own_some(alloc: Global, view: Option<ControlView<'_>>) -> Result<Option<Control>, NoMemory>
    ensures { IfOk result (λ control. option_map control_of control ≡ option_map control_lent view.entry) }
{
    match view {
        Some(view) => Ok(Some(own(alloc, view)?)),
        None => Ok(None),
    }
}

/// A copy of the control data.
fn own(alloc: Global, view: ControlView<'_>) -> Result<Control, NoMemory>
    ensures { IfOk result (λ control. control_of control ≡ control_lent view.entry) }
{
    let method = Bytes::from_slice(alloc, view.method)?;
    let scheme = Bytes::from_slice(alloc, view.scheme)?;
    let authority = Bytes::from_slice(alloc, view.authority)?;
    let path = Bytes::from_slice(alloc, view.path)?;
    Ok(Control {
        method,
        scheme,
        authority,
        path,
    })
}

/// Reads control data, within the limits.
pub fn read_control(alloc: Global, limits: &Limits, bytes: &[u8]) -> Result<ControlData, Fault>
    requires { length bytes.now ≤ 2 ^ 40 }
    ensures whole { IfOk result (λ read. Ends (ControlOf limits.now (control_of read.control)) [] bytes.now read.taken) }
    ensures stops { IfErr result (AtStop (StopsAt (ControlOf limits.now) (ControlOf no_bounds) bytes.now)) }
{
    let mut reader = ControlReader::new(alloc, limits)?;
    let taken = read_with(&mut reader, bytes)?;
    let control = own(alloc, reader.view())?;
    Ok(ControlData { control, taken })
}
