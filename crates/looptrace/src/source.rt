//! The sources of a script: pings and timers whose callbacks say their names.
ghost use Rattle.std.specs.Prelude.{◌≡◌, [], Some};
ghost use Rattle.std.specs.Option.{option_copied};
ghost use Rattle.looptrace.specs.Says.{Tells};
ghost use Rattle.looptrace.specs.Texts.{call_text, alarm_text};

use crate::name::SourceName;
use crate::text::{append_alarm, append_call};
use calloop::{
    Asking, Callback, Dispatcher, Instant, OneOf, PingSource, QuietCallback, Sources,
    TimeoutAction, Timer,
};
use std::alloc::Global;
use std::marker::Model;

/// What the callbacks of a dispatch said. Running out of memory for it is remembered, and then nothing is known of it.
#[derive(Drop)]
pub struct Said {
    text: Vec<u8>,
    lost: bool,
}

impl Model for Said {
    ghost use Rattle.std.specs.Prelude.{List, ℕ, Option, Some, None, if◌then◌else◌};

    ghost Value = { Option (List ℕ) };

    ghost view = { λ s. if s.lost then None else Some s.text.items };
}

impl Said {
    /// Nothing was said yet.
    pub fn new(alloc: Global) -> Said
        ensures { result ≡ Some [] }
    {
        Said {
            text: Vec::new(alloc),
            lost: false,
        }
    }

    /// The text that was said, or nothing if memory ran out.
    pub fn text(&self) -> Option<&[u8]>
        ensures { option_copied result ≡ self.now }
    {
        if self.lost {
            None
        } else {
            Some(self.text.as_slice())
        }
    }

    fn call(&mut self, name: &[u8])
        ensures { Tells (call_text name.now) self.old self.new }
    {
        if append_call(&mut self.text, name).is_err() {
            self.lost = true;
        }
    }

    fn alarm(&mut self, name: &[u8], deadline: Instant)
        ensures { Tells (alarm_text name.now deadline.nanos) self.old self.new }
    {
        if append_alarm(&mut self.text, name, deadline.nanos).is_err() {
            self.lost = true;
        }
    }
}

/// Says the name of the ping that is called.
#[derive(Drop)]
pub struct Teller {
    pub name: SourceName,
}

impl<Q: Asking> Callback<(), (), (), Said, Q> for Teller {
    ghost use Rattle.looptrace.specs.Sources.{tells};

    ghost may = { tells };

    fn call(&mut self, _event: (), _metadata: &mut (), said: &mut Said, _requests: &mut Q) {
        said.call(self.name.as_slice());
    }
}

impl<Q: Asking> QuietCallback<(), (), (), Said, Q> for Teller {
    ghost quiet = { λ f g e m n x y q r t h. h.2 };
}

/// Says the name of the timer that is called, and the deadline that is handed out.
#[derive(Drop)]
pub struct Alarm {
    pub name: SourceName,
}

impl<Q: Asking> Callback<Instant, (), TimeoutAction, Said, Q> for Alarm {
    ghost use Rattle.looptrace.specs.Sources.{tells_deadline};

    ghost may = { tells_deadline };

    fn call(
        &mut self,
        deadline: Instant,
        _metadata: &mut (),
        said: &mut Said,
        _requests: &mut Q,
    ) -> TimeoutAction {
        said.alarm(self.name.as_slice(), deadline);
        TimeoutAction::Drop
    }
}

impl<Q: Asking> QuietCallback<Instant, (), TimeoutAction, Said, Q> for Alarm {
    ghost quiet = { λ f g e m n x y q r t h. h.3 };
}

/// The sources of a script.
pub type Source<R> = Sources<
    OneOf<Dispatcher<PingSource<R>, Teller>, Dispatcher<Timer, Alarm>>,
    Said,
>;
