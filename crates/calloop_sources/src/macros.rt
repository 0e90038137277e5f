//! Several sources registered one after another, up to the first error. From calloop's `macros.rs`.
pub use calloop_slots::error::Error;

/// Registers the sources in the order listed. The function that uses this returns the first error; what was registered
/// until then stays so.
#[macro_export]
macro_rules! batch_register {
    ($poll:ident, $factory:ident, $($source:expr),* $(,)?) => {{
        $($source.register($poll, $factory)?;)*
        Ok::<(), $crate::macros::Error>(())
    }};
}

/// Registers the sources anew, in the order listed. The function that uses this returns the first error; what was
/// registered anew until then stays so.
#[macro_export]
macro_rules! batch_reregister {
    ($poll:ident, $factory:ident, $($source:expr),* $(,)?) => {{
        $($source.reregister($poll, $factory)?;)*
        Ok::<(), $crate::macros::Error>(())
    }};
}

/// Unregisters the sources in the order listed. The function that uses this returns the first error; what was
/// unregistered until then stays so.
#[macro_export]
macro_rules! batch_unregister {
    ($poll:ident, $($source:expr),* $(,)?) => {{
        $($source.unregister($poll)?;)*
        Ok::<(), $crate::macros::Error>(())
    }};
}
