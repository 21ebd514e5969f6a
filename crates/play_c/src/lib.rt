// The player, as C calls it.
#![tactic(auto)]

ghost use Rattle.std.specs.Prelude.{◌≡◌};
ghost use Rattle.play.specs.Player.{output, play_rule};

use play::Played;

// Plays a schedule. What refuses it is found before anything is written.
#[unsafe(no_mangle)]
pub extern "C" fn lrt_play(schedule: &[u8], out: &mut [u8]) -> Played
    ensures { output result out.new ≡ play_rule schedule.now out.old }
{
    play::lrt_play(schedule, out)
}
