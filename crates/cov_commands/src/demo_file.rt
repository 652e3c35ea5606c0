// The file that `demo` makes of a number.
ghost use Rattle.std.specs.Prelude.{◌≡◌, ◌<◌, IfOk, string_bytes};
ghost use Rattle.cov_commands.specs.DemoFile as spec;

use items::Memory;
use std::alloc::Global;

/// The text of the file that is made of a number, with so many functions.
pub(crate) fn demo_text(alloc: Global, seed: u64, count: u64) -> Result<String, Memory>
    ensures { IfOk result (λ text. string_bytes text ≡ spec.demo_text seed count) }
{
    let functions = functions_of(alloc, seed, count)?;
    let calls = calls_of(alloc, count)?;
    format!(in alloc; "let t = 0;\n{functions}{calls}print(t);\n")
}

/// The lines of so many functions.
fn functions_of(alloc: Global, seed: u64, count: u64) -> Result<String, Memory>
    ensures { IfOk result (λ lines. string_bytes lines ≡ spec.function_lines seed count) }
{
    let mut lines = String::new(alloc);
    let mut drawn = seed;
    for number in 0..count {
        drawn = next(drawn);
        let line = function_line(alloc, number, constant_of(drawn))?;
        lines.push_str(line.as_str())?;
    }
    Ok(lines)
}

/// The lines of their calls.
fn calls_of(alloc: Global, count: u64) -> Result<String, Memory>
    ensures { IfOk result (λ lines. string_bytes lines ≡ spec.call_lines count) }
{
    let mut lines = String::new(alloc);
    for number in 0..count {
        let line = call_line(alloc, number)?;
        lines.push_str(line.as_str())?;
    }
    Ok(lines)
}

/// The line of the function of a number, with a constant.
fn function_line(alloc: Global, number: u64, constant: u64) -> Result<String, Memory>
    ensures { IfOk result (λ line. string_bytes line ≡ spec.function_line number constant) }
{
    format!(in alloc;
        "function f{number}(a) {{ return a % 2 ? a + {constant} : a - {constant}; }}\n"
    )
}

/// The line of its call.
fn call_line(alloc: Global, number: u64) -> Result<String, Memory>
    ensures { IfOk result (λ line. string_bytes line ≡ spec.call_line number) }
{
    format!(in alloc; "t = f{number}(t);\n")
}

/// The number that a draw makes of the one before.
fn next(drawn: u64) -> u64
    ensures { result ≡ spec.next drawn }
{
    drawn
        .wrapping_mul(6_364_136_223_846_793_005)
        .wrapping_add(1_442_695_040_888_963_407)
}

/// What a draw gives, below 100.
fn constant_of(drawn: u64) -> u64
    ensures { result ≡ spec.constant drawn }
{
    (drawn >> 33) % 100
}
