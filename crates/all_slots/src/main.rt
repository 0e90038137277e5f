//! Fills all slots that a list can have, and then uses the last of them again until its first token names a source there.
#![tactic(auto)]

use calloop_slots::error::Result;
use calloop_slots::list::{ClaimRefusal, SourceList};
use calloop_slots::steps::Steps;
use calloop_slots::token::RegistrationToken;
use calloop_slots::widths::{MOST_SLOTS, VERSIONS};

// Claims slots until one is refused. How many it got, and why it got no other.
fn fill(list: &mut SourceList<u8>) -> (u64, Option<ClaimRefusal>) {
    for claimed in 0..=MOST_SLOTS {
        if let Err(refusal) = list.vacant_entry(&mut Steps::new()) {
            return (claimed, Some(refusal));
        }
    }
    (u64::MAX, None)
}

// Gives a slot up and claims the first vacant one, so many times over. The token that it got last.
fn use_again(
    list: &mut SourceList<u8>,
    first: RegistrationToken,
    count: u64,
) -> Option<RegistrationToken> {
    let mut token = first;
    for _ in 0..count {
        list.vacate(token);
        token = list.vacant_entry(&mut Steps::new()).ok()?;
    }
    Some(token)
}

fn main(rt: HostRuntime) -> Result<()> {
    let mut list = SourceList::new(rt.alloc());
    let (claimed, refusal) = fill(&mut list);
    println!(rt; "{claimed} slots, then {refusal:?}")?;
    let refusal = list.vacant_entry(&mut Steps::new()).err();
    println!(rt; "again {refusal:?}")?;
    let first = RegistrationToken::new(16_777_215, 0);
    let mut token = first;
    for uses in [65_536, VERSIONS - 65_537, 1] {
        let Some(next) = use_again(&mut list, token, uses) else {
            return Ok(());
        };
        token = next;
        let _untaken = list.end_turn(token, 7);
        let found = list.get(first);
        println!(rt;
            "after {uses} uses more: {} {}, its first token names {found:?}",
            token.slot(),
            token.version()
        )?;
        let _taken = list.begin_turn(token);
    }
    Ok(())
}
