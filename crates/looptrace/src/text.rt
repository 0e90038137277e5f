ghost use Rattle.std.specs.Prelude.{◌≡◌, ◌++◌, OnOk, OnErr};
ghost use Rattle.std.specs.Fmt.{decimal};
ghost use Rattle.looptrace.specs.Texts.{BeginsWith, insert_text, wait_text, timeout_text, called_text, call_text, alarm_text, refused_text};

use std::alloc::AllocError;

fn append_number(out: &mut Vec<u8>, number: u64) -> Result<(), AllocError>
    ensures ok { OnOk result (out.new.items ≡ out.old.items ++ decimal number) }
    ensures err { OnErr result (BeginsWith out.new.items out.old.items) }
{
    let digits = number.to_string(*out.allocator())?;
    out.extend_from_slice(digits.as_bytes())
}

/// Appends `insert NAME SLOT VERSION` and a line feed. An `Err` says that memory ran out, and a part of it may be appended then.
pub fn append_insert(
    out: &mut Vec<u8>,
    name: &[u8],
    slot: u32,
    version: u32,
) -> Result<(), AllocError>
    ensures ok { OnOk result (out.new.items ≡ out.old.items ++ insert_text name.now slot version) }
    ensures err { OnErr result (BeginsWith out.new.items out.old.items) }
{
    out.extend_from_slice(b"insert ")?;
    out.extend_from_slice(name)?;
    out.extend_from_slice(b" ")?;
    append_number(out, slot as u64)?;
    out.extend_from_slice(b" ")?;
    append_number(out, version as u64)?;
    out.extend_from_slice(b"\n")
}

fn append_timeout(out: &mut Vec<u8>, asked: Option<u64>) -> Result<(), AllocError>
    ensures ok { OnOk result (out.new.items ≡ out.old.items ++ timeout_text asked) }
    ensures err { OnErr result (BeginsWith out.new.items out.old.items) }
{
    match asked {
        Some(nanoseconds) => append_number(out, nanoseconds),
        None => out.extend_from_slice(b"-"),
    }
}

/// Appends `wait N`, in nanoseconds, or `wait -`, and a line feed. An `Err` says that memory ran out, and a part of it may be appended then.
pub fn append_wait(out: &mut Vec<u8>, asked: Option<u64>) -> Result<(), AllocError>
    ensures ok { OnOk result (out.new.items ≡ out.old.items ++ wait_text asked) }
    ensures err { OnErr result (BeginsWith out.new.items out.old.items) }
{
    out.extend_from_slice(b"wait ")?;
    append_timeout(out, asked)?;
    out.extend_from_slice(b"\n")
}

fn append_called(out: &mut Vec<u8>, name: &[u8]) -> Result<(), AllocError>
    ensures ok { OnOk result (out.new.items ≡ out.old.items ++ called_text name.now) }
    ensures err { OnErr result (BeginsWith out.new.items out.old.items) }
{
    out.extend_from_slice(b"call ")?;
    out.extend_from_slice(name)
}

/// Appends `call NAME` and a line feed. An `Err` says that memory ran out, and a part of it may be appended then.
pub fn append_call(out: &mut Vec<u8>, name: &[u8]) -> Result<(), AllocError>
    ensures ok { OnOk result (out.new.items ≡ out.old.items ++ call_text name.now) }
    ensures err { OnErr result (BeginsWith out.new.items out.old.items) }
{
    append_called(out, name)?;
    out.extend_from_slice(b"\n")
}

/// Appends `call NAME AT`, in nanoseconds, and a line feed. An `Err` says that memory ran out, and a part of it may be appended then.
pub fn append_alarm(out: &mut Vec<u8>, name: &[u8], at: u64) -> Result<(), AllocError>
    ensures ok { OnOk result (out.new.items ≡ out.old.items ++ alarm_text name.now at) }
    ensures err { OnErr result (BeginsWith out.new.items out.old.items) }
{
    append_called(out, name)?;
    out.extend_from_slice(b" ")?;
    append_number(out, at)?;
    out.extend_from_slice(b"\n")
}

/// Appends `refused WORD` and a line feed. An `Err` says that memory ran out, and a part of it may be appended then.
pub fn append_refused(out: &mut Vec<u8>, word: &str) -> Result<(), AllocError>
    ensures ok { OnOk result (out.new.items ≡ out.old.items ++ refused_text word.now) }
    ensures err { OnErr result (BeginsWith out.new.items out.old.items) }
{
    out.extend_from_slice(b"refused ")?;
    out.extend_from_slice(word.as_bytes())?;
    out.extend_from_slice(b"\n")
}
