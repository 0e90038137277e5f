//! What the law of the timers of scripts rules out.
ghost use Rattle.std.specs.Prelude.{◌≡◌, ℕ, List, []};
ghost use Rattle.calloop_slots.specs.declared.token.RegistrationToken.{RegistrationToken};
ghost use Rattle.calloop_sources.specs.declared.timer.Registration.{Registration};
ghost use Rattle.calloop_script.specs.ScriptPollers.{script_outside};
ghost use Rattle.calloop_loop.specs.declared.LoopCall.TheVariants.{Insert};
ghost use Rattle.calloop_loop.specs.Machine.{IsNew};
ghost use Rattle.calloop_laws.specs.EveryRun.{OverEveryRun, FromTheStart};
ghost use Rattle.calloop_laws.specs.Wrong.{called_early, called_twice};
ghost use Rattle.looptrace.specs.Sources.{Source, source_meaning, no_idles};
ghost use Rattle.looptrace.specs.InTime.{AllScripted, IsScripted};
ghost use Rattle.looptrace_tests.specs.Scripts.{ScriptRun, IsInTime, inserts_a_timer, exchanges_a_source, registered_timer};

use looptrace::laws::timers_are_called_in_time;
use std::sync::Wait;

/// Calls of a script that there are, and what the law of the timers of scripts rules out: a second call that exchanges a source, an
/// insertion of a timer that is registered, and runs from the beginning that end with a timer which was called early,
/// or twice for one arming.
pub fn wrong_scripts_are_ruled_out<R: Wait + Clone + Drop>()
    ensures law { OverEveryRun source_meaning no_idles script_outside (FromTheStart IsInTime) }
    ensures there_is { (name : List ℕ) → AllScripted (inserts_a_timer name) }
    ensures exchange { (token : RegistrationToken) (source : Source)
        → ¬ AllScripted (exchanges_a_source token source) }
    ensures registered { (name : List ℕ) (registration : Registration)
        → ¬ IsScripted (Insert (registered_timer name registration)) }
    ensures early { (r : ScriptRun) → IsNew r.began → r.calls ≡ [] → r.ended.ledger ≡ called_early
        → ¬ FromTheStart IsInTime r }
    ensures twice { (r : ScriptRun) → IsNew r.began → r.calls ≡ [] → r.ended.ledger ≡ called_twice
        → ¬ FromTheStart IsInTime r }
{
    timers_are_called_in_time::<R>();
}
