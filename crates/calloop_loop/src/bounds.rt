//! Bounds of a loop's choice of sources, each under one name.
use super::{EventDispatcher, Requests};
use calloop_poll::sys::Poller;
use calloop_sources::sources::{Callback, Dispatch, EventSource, Hold, Keep};
use std::sync::Wait;

/// A loop's choice of sources that has a place `N` for this source with this callback, so that `insert_source` takes them:
/// `Hold`, with what this loop lends and what it can be asked for.
pub trait LoopHold<S, F, P: Poller, C, R: Wait + Drop, N>: EventDispatcher<P, C, R>
    + Hold<
        S,
        F,
        P,
        C,
        R,
        <Self as EventDispatcher<P, C, R>>::Data,
        Requests<Self, <Self as EventDispatcher<P, C, R>>::Idle>,
        N,
    >
where
    S: EventSource<P, C, R>,
    F: Callback<
        S::Event,
        S::Metadata,
        S::Ret,
        <Self as EventDispatcher<P, C, R>>::Data,
        Requests<Self, <Self as EventDispatcher<P, C, R>>::Idle>,
    >,
{}

impl<D, S, F, P: Poller, C, R: Wait + Drop, N> LoopHold<S, F, P, C, R, N> for D
where
    D: EventDispatcher<P, C, R>
        + Hold<
            S,
            F,
            P,
            C,
            R,
            <D as EventDispatcher<P, C, R>>::Data,
            Requests<D, <D as EventDispatcher<P, C, R>>::Idle>,
            N,
        >,
    S: EventSource<P, C, R>,
    F: Callback<
        S::Event,
        S::Metadata,
        S::Ret,
        <D as EventDispatcher<P, C, R>>::Data,
        Requests<D, <D as EventDispatcher<P, C, R>>::Idle>,
    >,
{}

/// A loop's choice of sources with a place `N` for something without a callback of its own, as an `Adapter` or a `TimeoutTimer`.
pub trait LoopKeep<T, P: Poller, C, R: Wait + Drop, N>: EventDispatcher<P, C, R>
    + Keep<
        T,
        P,
        C,
        R,
        <Self as EventDispatcher<P, C, R>>::Data,
        Requests<Self, <Self as EventDispatcher<P, C, R>>::Idle>,
        N,
    >
where
    T: Dispatch<
        P,
        C,
        R,
        <Self as EventDispatcher<P, C, R>>::Data,
        Requests<Self, <Self as EventDispatcher<P, C, R>>::Idle>,
    >,
{}

impl<D, T, P: Poller, C, R: Wait + Drop, N> LoopKeep<T, P, C, R, N> for D
where
    D: EventDispatcher<P, C, R>
        + Keep<
            T,
            P,
            C,
            R,
            <D as EventDispatcher<P, C, R>>::Data,
            Requests<D, <D as EventDispatcher<P, C, R>>::Idle>,
            N,
        >,
    T: Dispatch<
        P,
        C,
        R,
        <D as EventDispatcher<P, C, R>>::Data,
        Requests<D, <D as EventDispatcher<P, C, R>>::Idle>,
    >,
{}
