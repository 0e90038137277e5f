//! The sources of a script under their names, with the pings that ring them.
ghost use Rattle.std.specs.Prelude.{◌≡◌, [], OnOk, OnErr, None, is_some};
ghost use Rattle.std.specs.Option.{option_map};
ghost use Rattle.looptrace.specs.Named.{is_taken, ping_named, with_source, without_ping};

use crate::name::SourceName;
use calloop::ping::Ping;
use calloop_wake::Receipt;
use std::alloc::{AllocError, Global};
use std::collections::BTreeMap;
use std::marker::Model;
use std::sync::Wait;

/// The entry under a name: its ping, while that is open. A timer has none.
#[derive(Drop)]
struct Named<R: Wait + Drop> {
    ping: Option<Ping<R>>,
}

impl<R: Wait + Drop> Model for Named<R> {
    ghost use Rattle.std.specs.Prelude.{Option};
    ghost use Rattle.logbook.specs.Pages.{Book};

    ghost Value = { Option Book };

    ghost view = { λ s. s.ping };
}

impl<R: Wait + Drop> Named<R> {
    // Rings the entry's ping, if that is open.
    fn ring(&self) -> Option<Receipt>
        ensures { option_map (λ receipt. receipt.name) result ≡ self.now }
    {
        match &self.ping {
            Some(ping) => Some(ping.ping()),
            None => None,
        }
    }

    fn is_open(&self) -> bool
        ensures { result ≡ is_some self.now }
    {
        self.ping.is_some()
    }

    // Drops the entry's ping.
    fn close(&mut self)
        ensures { self.new ≡ None }
    {
        self.ping = None;
    }
}

/// The sources of a script, each under its name, which is never given back. No call walks them.
#[derive(Drop)]
pub struct Names<R: Wait + Drop> {
    by_name: BTreeMap<SourceName, Named<R>>,
}

impl<R: Wait + Drop> Model for Names<R> {
    ghost use Rattle.std.specs.Prelude.{List};
    ghost use Rattle.looptrace.specs.Named.{Named};

    ghost Value = { List Named };

    ghost view = { λ s. s.by_name.entries };
}

impl<R: Wait + Drop> Names<R> {
    /// No sources.
    pub fn new(alloc: Global) -> Names<R>
        ensures { result ≡ [] }
    {
        Names {
            by_name: BTreeMap::new(alloc),
        }
    }

    /// True if some source has this name.
    pub fn is_taken(&self, name: &SourceName) -> bool
        ensures { result ≡ is_taken name.now self.now }
    {
        self.by_name.contains_key(name)
    }

    /// Rings the open ping of this name. `None` if there is none.
    pub fn ring(&self, name: &SourceName) -> Option<Receipt>
        ensures { option_map (λ receipt. receipt.name) result ≡ ping_named name.now self.now }
    {
        self.by_name.get(name)?.ring()
    }

    /// True if an open ping has this name.
    pub fn has_open_ping(&self, name: &SourceName) -> bool
        ensures { result ≡ is_some (ping_named name.now self.now) }
    {
        match self.by_name.get(name) {
            Some(named) => named.is_open(),
            None => false,
        }
    }

    /// Drops the ping of this name. A name that no source has changes nothing.
    #[tactic(auto, using(crate::proofs::NameLemmas::set_value_absent))]
    pub fn close(&mut self, name: &SourceName)
        ensures { self.new ≡ without_ping name.now self.old }
    {
        if let Some(named) = self.by_name.get_mut(name) {
            named.close();
        }
    }

    /// Keeps a name with its ping. If the name has a source already, that one's ping is dropped. An `Err` says that memory ran
    /// out, and then nothing changes.
    pub fn insert(&mut self, name: SourceName, ping: Option<Ping<R>>) -> Result<(), AllocError>
        ensures ok { OnOk result (self.new ≡ with_source name ping self.old) }
        ensures err { OnErr result (self.new ≡ self.old) }
    {
        self.by_name.insert(name, Named { ping })?;
        Ok(())
    }
}
