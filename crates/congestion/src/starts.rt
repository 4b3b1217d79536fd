ghost use Rattle.congestion.specs.Starts.{FirstWindow};

use crate::faults::ControllerFault;

/// The window that a controller of this segment size starts with, as in RFC 5681.
pub(crate) fn first_window(segment: u32) -> Result<u32, ControllerFault>
    ensures { FirstWindow segment result }
{
    match segment {
        64..=1095 => Ok(4 * segment),
        1096..=2190 => Ok(3 * segment),
        2191..=9000 => Ok(2 * segment),
        _ => Err(ControllerFault::Segment(segment)),
    }
}
