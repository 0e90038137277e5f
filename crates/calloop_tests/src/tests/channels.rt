//! Channels that no loop holds.
use calloop::Error;
use calloop::channel::{
    ChannelError, RecvError, SendError, Sender, TryRecvError, TrySendError, make_channel,
    sync_channel,
};
use calloop::ping::PingError;
use std::sync::Wait;
use std::test::Fail;

#[test]
fn a_send_after_the_channel_is_gone_hands_the_message_back(rt: HostRuntime) -> Result<(), Fail> {
    let (sender, channel) = make_channel(&rt, rt.alloc())?;
    drop(channel);
    assert!(rt; matches!(sender.send(7u32), Err(SendError::Disconnected(7))));
    let (sender, channel) = sync_channel(&rt, rt.alloc(), 1)?;
    drop(channel);
    assert!(rt; matches!(sender.send(8u32), Err(SendError::Disconnected(8))));
    Ok(())
}

#[test]
fn messages_are_received_in_order_and_the_close_behind_them(rt: HostRuntime) -> Result<(), Fail> {
    let (sender, mut channel) = make_channel(&rt, rt.alloc())?;
    let again = sender.clone()?;
    assert!(rt; sends(&sender, &[1, 2]) && sends(&again, &[3]));
    drop(again);
    assert_eq!(rt; channel.recv(), Ok(1));
    assert_eq!(rt; channel.try_recv(), Ok(2));
    drop(sender);
    assert_eq!(rt; channel.recv(), Ok(3));
    assert_eq!(rt; channel.recv(), Err(RecvError));
    assert_eq!(rt; channel.try_recv(), Err(TryRecvError::Disconnected));
    Ok(())
}

#[test]
fn an_empty_channel_says_so(rt: HostRuntime) -> Result<(), Fail> {
    let (sender, mut channel) = sync_channel(&rt, rt.alloc(), 1)?;
    let again = sender.clone()?;
    assert_eq!(rt; channel.try_recv(), Err(TryRecvError::Empty));
    assert!(rt; again.try_send(4u32).is_ok());
    assert_eq!(rt; channel.try_recv(), Ok(4));
    assert!(rt; sender.try_send(5u32).is_ok());
    assert_eq!(rt; channel.recv(), Ok(5));
    assert_eq!(rt; channel.try_recv(), Err(TryRecvError::Empty));
    Ok(())
}

#[test]
fn a_channel_without_room_is_refused(rt: HostRuntime) {
    match sync_channel::<u32, HostRuntime>(&rt, rt.alloc(), 0) {
        Err(refused) => assert!(rt; matches!(refused, Error::NoRendezvous)),
        Ok(_) => assert!(rt; false),
    }
}

#[test]
fn a_text_is_a_message_too(rt: HostRuntime) -> Result<(), Fail> {
    let (sender, mut channel) = make_channel(&rt, rt.alloc())?;
    let text = format!(in rt.alloc(); "hello")?;
    assert!(rt; sender.send(text).is_ok());
    let taken = channel.recv().ok();
    assert_eq!(rt; taken.as_deref(), Some("hello"));
    Ok(())
}

#[test]
fn refusals_say_what_those_of_the_standard_library_say(rt: HostRuntime) -> Result<(), Fail> {
    let closed = "sending on a closed channel";
    let of_send = format!(in rt.alloc();
        "{}, {}",
        SendError::Disconnected(1u32),
        SendError::OutOfMemory(1u32)
    )?;
    assert_eq!(rt;
        of_send.as_str(),
        "sending on a closed channel, out of memory"
    );
    let of_try = format!(in rt.alloc(); "{}", TrySendError::Disconnected(1u32))?;
    assert_eq!(rt; of_try.as_str(), closed);
    let of_full = format!(in rt.alloc(); "{}", TrySendError::Full(1u32))?;
    assert_eq!(rt; of_full.as_str(), "sending on a full channel");
    let shown = format!(in rt.alloc();
        "{:?}, {:?}",
        SendError::Disconnected(1u32),
        TrySendError::Full(1u32)
    )?;
    assert_eq!(rt; shown.as_str(), "Disconnected(..), Full(..)");
    Ok(())
}

#[test]
fn ends_of_a_receiver_say_what_those_of_the_standard_library_say(
    rt: HostRuntime,
) -> Result<(), Fail> {
    let of_receive = format!(in rt.alloc(); "{RecvError}, {}", TryRecvError::Empty)?;
    assert_eq!(rt;
        of_receive.as_str(),
        "receiving on a closed channel, receiving on an empty channel"
    );
    let of_try = format!(in rt.alloc(); "{}", TryRecvError::Disconnected)?;
    assert_eq!(rt; of_try.as_str(), "receiving on a closed channel");
    Ok(())
}

#[test]
fn a_turn_that_failed_says_why(rt: HostRuntime) -> Result<(), Fail> {
    let of_turn = format!(in rt.alloc(); "{}", ChannelError(PingError::OutOfMemory))?;
    assert_eq!(rt; of_turn.as_str(), "out of memory");
    Ok(())
}

// Whether all are sent.
fn sends<R: Wait + Drop>(sender: &Sender<u32, R>, numbers: &[u32]) -> bool {
    numbers.iter().all(|number| sender.send(*number).is_ok())
}
