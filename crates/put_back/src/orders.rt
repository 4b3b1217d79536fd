ghost use Rattle.std.specs.Prelude.{◌≡◌};
ghost use Rattle.protocol.specs.Answers.{told, to_repeat};
ghost use Rattle.sender.specs.Views.{Sound};
ghost use Rattle.put_back.specs.Orders.{repeat_put_back};

use congestion::controller::Controller;
use nonce::source::NonceSource;
use protocol::faults::SenderFault;
use protocol::segment::Segment;
use sender::sender::Sender;

/// Takes a due repeat, puts its order back, takes it again and repeats it.
pub fn repeat_put_back<C: Controller, N: NonceSource>(
    panel: &mut Sender<C, N>,
) -> Result<Segment, SenderFault>
    ensures answer { repeat_put_back C.control panel.old ≡ told (to_repeat result) panel.new }
    ensures before { Sound panel.old }
    ensures sound { Sound panel.new }
{
    let order = panel.take()?;
    panel.put_back(order);
    panel.take_and_repeat()
}
