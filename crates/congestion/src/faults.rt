ghost use Rattle.congestion.specs.Faults.{refusal as meaning};
ghost use Rattle.fault.specs.declared.Layer.TheVariants.{Controller};

use fault::{Fault, Label, Layer};

/// Why no controller is made.
#[derive(Clone, Copy, Debug)]
pub enum ControllerFault {
    /// A segment size, given here, that is not 64 to 9000.
    Segment(u32),
}

impl Fault for ControllerFault {
    ghost origin = { Controller };

    ghost refusal = { meaning };

    fn layer(&self) -> Layer {
        Layer::Controller
    }

    fn label(&self) -> Label {
        match self {
            ControllerFault::Segment(size) => Label::at(1, u64::from(*size)),
        }
    }
}
