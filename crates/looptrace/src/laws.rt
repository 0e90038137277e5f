//! The law of the timers of every script.
ghost use Rattle.std.specs.Prelude.{List, ℕ, Option, Some};
ghost use Rattle.calloop_script.specs.declared.ScriptPoller.{ScriptPoller};
ghost use Rattle.calloop_script.specs.ScriptPollers.{script_outside};
ghost use Rattle.calloop_laws.specs.EveryRun.{LoopRun, OverEveryRun, FromTheStart};
ghost use Rattle.calloop_laws.specs.Laws.{IsLedgerOf};
ghost use Rattle.looptrace.specs.Sources.{Source, source_meaning, no_idles};
ghost use Rattle.looptrace.specs.Runs.{State, trace_step};
ghost use Rattle.looptrace.specs.InTime.{AllScripted, Asks};

use crate::source::Source;
use calloop_laws::once_where_nothing_is_asked;
use calloop_script::{ScriptClock, ScriptPoller};
use std::sync::Wait;

/// For every script: each line only makes calls that insert a ping or a timer that was never registered, and exchanges no source.
/// And in every run of a loop by such calls, from its beginning: no timer is called early, nor twice for one arming, and each
/// call hands out the deadline of its arming.
pub fn timers_are_called_in_time<R: Wait + Clone + Drop>()
    ensures lines { (s t : State) (line said : List ℕ) → trace_step s line (Some (t, said))
        → Asks s.loop t.loop }
    ensures in_time { OverEveryRun source_meaning no_idles script_outside
        (FromTheStart (λ (r : LoopRun Source (Unit {0}) ScriptPoller (Option (List ℕ))).
        AllScripted r.calls → IsLedgerOf r.ended.ledger r.ended.poll)) }
{
    once_where_nothing_is_asked::<Source<R>, ScriptPoller, ScriptClock, R>();
}
