ghost use Rattle.std.specs.Prelude.{◌≡◌, string_bytes, IfOk};
ghost use Rattle.script_print.specs.Printed.{done_line, cancelled_line, fault_line, refused_line, bad_line, files_line, long_line, many_lines, many_asks_line};

use flow_base::{NoMemory, Path};
use std::alloc::Global;

/// The line of a recheck that is done: the new version, and the numbers of modules that were parsed
/// and checked and of errors.
///
/// # Errors
///
/// `NoMemory` where memory is refused.
pub fn done_line(
    alloc: Global,
    version: u32,
    parsed: u32,
    checked: u32,
    errors: u64,
) -> Result<String, NoMemory>
    ensures { IfOk result (λ text. string_bytes text ≡ done_line version parsed checked errors) }
{
    Ok(format!(in alloc;
        "recheck {version}: {parsed} parsed, {checked} checked, {errors} errors\n"
    )?)
}

/// The line of a recheck that was cancelled at a poll, counted from 1, at the version that stays.
///
/// # Errors
///
/// `NoMemory` where memory is refused.
pub fn cancelled_line(alloc: Global, poll: u32, version: u32) -> Result<String, NoMemory>
    ensures { IfOk result (λ text. string_bytes text ≡ cancelled_line poll version) }
{
    Ok(format!(in alloc; "recheck cancelled at poll {poll}, still {version}\n")?)
}

/// The line of a recheck that could not read a path, at the version that stays.
///
/// # Errors
///
/// `NoMemory` where memory is refused.
pub fn fault_line(alloc: Global, path: &Path, version: u32) -> Result<String, NoMemory>
    ensures { IfOk result (λ text. string_bytes text ≡ fault_line path.now version) }
{
    let path = path.as_str();
    Ok(format!(in alloc; "recheck cannot read {path}, still {version}\n")?)
}

/// The line of an edit with which there would be so many modules.
///
/// # Errors
///
/// `NoMemory` where memory is refused.
pub fn refused_line(alloc: Global, count: u64) -> Result<String, NoMemory>
    ensures { IfOk result (λ text. string_bytes text ≡ refused_line count) }
{
    Ok(format!(in alloc; "too many modules {count}\n")?)
}

/// The line that ends a script at a line that is no command, by its number from 1.
///
/// # Errors
///
/// `NoMemory` where memory is refused.
pub fn bad_line(alloc: Global, number: u64) -> Result<String, NoMemory>
    ensures { IfOk result (λ text. string_bytes text ≡ bad_line number) }
{
    Ok(format!(in alloc; "bad line {number}\n")?)
}

/// The line of a folder that lists so many modules.
///
/// # Errors
///
/// `NoMemory` where memory is refused.
pub fn files_line(alloc: Global, count: u64) -> Result<String, NoMemory>
    ensures { IfOk result (λ text. string_bytes text ≡ files_line count) }
{
    Ok(format!(in alloc; "limit files {count}\n")?)
}

/// The line that ends a script at a line of more than 4,194,304 bytes.
pub fn long_line() -> &'static [u8]
    ensures { result.now ≡ long_line }
{
    b"limit line 4194305\n"
}

/// The line that ends a script of more than 1,048,576 lines.
pub fn many_lines() -> &'static [u8]
    ensures { result.now ≡ many_lines }
{
    b"limit lines 1048577\n"
}

/// The line that ends a script at a recheck with so many questions beside it.
///
/// # Errors
///
/// `NoMemory` where memory is refused.
pub fn many_asks(alloc: Global, count: u64) -> Result<String, NoMemory>
    ensures { IfOk result (λ text. string_bytes text ≡ many_asks_line count) }
{
    Ok(format!(in alloc; "limit asks {count}\n")?)
}
