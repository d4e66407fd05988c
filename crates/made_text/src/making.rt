ghost use Rattle.std.specs.Prelude.{◌≡◌, ◌≤◌, ◌++◌, IfOk, length};
ghost use Rattle.made_text.specs.Made.{HasMadeLines, made_text, opening_text, round_text};

use il_core::NoMemory;
use itoa::Buffer;
use std::alloc::Global;

/// Adds the first lines, up to the POST, which names the number.
fn add_opening(text: &mut Vec<u8>, number: u8) -> Result<(), NoMemory>
    ensures { IfOk result (λ _. text.new.items ≡ text.old.items ++ opening_text number) }
{
    let mut digits = Buffer::new();
    text.extend_from_slice(b"TITLE gen;\nPROC p;\nINOUT x : 0 .. 200;\nPRE TRUE;\nPOST x >= ")?;
    text.extend_from_slice(digits.format(number).as_bytes())?;
    text.extend_from_slice(b";\n")?;
    Ok(())
}

/// Adds the loop that raises the variable to `least`.
fn add_round(text: &mut Vec<u8>, least: u8) -> Result<(), NoMemory>
    ensures { IfOk result (λ _. text.new.items ≡ text.old.items ++ round_text least) }
{
    let mut digits = Buffer::new();
    text.extend_from_slice(b"LOOP;\nEXIT WHEN x >= ")?;
    text.extend_from_slice(digits.format(least).as_bytes())?;
    text.extend_from_slice(b";\nx := x + 1;\nENDLOOP;\n")?;
    Ok(())
}

/// The made text of a number from 1 to 200: one procedure with a variable `x` from 0 to 200 and so many loops, of which the
/// k-th is left where `x` is at least k, and raises `x` by one. `NoMemory` is the only free answer. The cost is linear in
/// the number.
pub fn make_text(alloc: Global, number: u8) -> Result<Vec<u8>, NoMemory>
    requires { (1 ≤ number) × (number ≤ 200) }
    ensures text { IfOk result (λ text. text.items ≡ made_text number) }
    ensures short { IfOk result (λ text. length text.items ≤ 1048576) }
{
    let mut text = Vec::new(alloc);
    add_opening(&mut text, number)?;
    for least in 1..=number {
        add_round(&mut text, least)?;
    }
    text.extend_from_slice(b"ENDPROC;\nFINISH;\n")?;
    Ok(text)
}

/// The made text of n has 4n + 7 lines, each ended by a newline: five before the loops, four in each, and two behind them.
/// This law costs nothing.
pub fn made_lines()
    ensures { HasMadeLines }
{}
