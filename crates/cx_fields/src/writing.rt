ghost use Rattle.std.specs.Prelude.{◌≡◌, ◌<◌, ◌^◌, ◌++◌, length, OnOk};
ghost use Rattle.std.specs.List.{All};
ghost use Rattle.cx_code.specs.Spelling.{number, flag, text, list, instruction, region, initial, assertion, kind_code};
ghost use Rattle.cx_code.specs.Storable.{IsShort};

use byteorder::{BigEndian, ByteOrder};
use cx_code::{Assertion, AssertionKind, Initial, Instruction, Region};
use cx_outside::{NoMemory, Text};

/// Writes a number, its high byte first. `NoMemory` for want of memory alone. (This project's own.)
#[tactic(auto, unfolding(cx_code::specs::Spelling::number))]
pub fn put_number(out: &mut Text, n: u32) -> Result<(), NoMemory>
    ensures { OnOk result (out.new ≡ out.old ++ number n) }
{
    let mut bytes = [0; 4];
    BigEndian::write_u32(&mut bytes, n);
    out.append(&bytes)
}

/// Writes a count of items or bytes. `NoMemory` for want of memory alone. (This project's own.)
pub fn put_count(out: &mut Text, count: usize) -> Result<(), NoMemory>
    requires { count < 2 ^ 32 }
    ensures { OnOk result (out.new ≡ out.old ++ number count) }
{
    put_number(out, count as u32)
}

/// Writes 1 for true and 0 for false. `NoMemory` for want of memory alone. (This project's own.)
pub fn put_flag(out: &mut Text, b: bool) -> Result<(), NoMemory>
    ensures { OnOk result (out.new ≡ out.old ++ flag b) }
{
    out.push(if b { 1 } else { 0 })
}

/// Writes a text: its length and its bytes. `NoMemory` for want of memory alone. (This project's own.)
pub fn put_text(out: &mut Text, bytes: &[u8]) -> Result<(), NoMemory>
    requires { IsShort bytes.now }
    ensures { OnOk result (out.new ≡ out.old ++ text bytes.now) }
{
    put_count(out, bytes.len())?;
    out.append(bytes)
}

/// Writes a list of texts. `NoMemory` for want of memory alone. (This project's own.)
pub fn put_texts(out: &mut Text, texts: &[Text]) -> Result<(), NoMemory>
    requires count { length texts.now < 2 ^ 32 }
    requires each { All IsShort texts.now }
    ensures { OnOk result (out.new ≡ out.old ++ list text texts.now) }
{
    put_count(out, texts.len())?;
    for item in texts {
        put_text(out, item.bytes())?;
    }
    Ok(())
}

/// Writes what a global holds at first. `NoMemory` for want of memory alone. (This project's own.)
pub fn put_initial(out: &mut Text, value: Initial) -> Result<(), NoMemory>
    ensures { OnOk result (out.new ≡ out.old ++ initial value) }
{
    let (sort, high, low) = match value {
        Initial::Number(high, low) => (0, high, low),
        Initial::Null => (1, 0, 0),
    };
    out.push(sort)?;
    put_number(out, high)?;
    put_number(out, low)
}

#[tactic(auto, unfolding(cx_code::specs::Spelling::number))]
fn put_instruction(out: &mut Text, i: &Instruction) -> Result<(), NoMemory>
    ensures { OnOk result (out.new ≡ out.old ++ instruction i.now) }
{
    let mut bytes = [0; 9];
    bytes[0] = i.code;
    BigEndian::write_u32(&mut bytes[1..], i.a);
    BigEndian::write_u32(&mut bytes[5..], i.b);
    out.append(&bytes)
}

/// Writes the instructions of a function. `NoMemory` for want of memory alone. (This project's own.)
pub fn put_code(out: &mut Text, code: &[Instruction]) -> Result<(), NoMemory>
    requires { length code.now < 2 ^ 32 }
    ensures { OnOk result (out.new ≡ out.old ++ list instruction code.now) }
{
    put_count(out, code.len())?;
    for item in code {
        put_instruction(out, item)?;
    }
    Ok(())
}

fn put_region(out: &mut Text, r: &Region) -> Result<(), NoMemory>
    ensures { OnOk result (out.new ≡ out.old ++ region r.now) }
{
    put_number(out, r.start)?;
    put_number(out, r.end)?;
    out.push(r.kind)?;
    put_number(out, r.of)?;
    put_number(out, r.target)?;
    put_number(out, r.depth)?;
    Ok(())
}

/// Writes the unwind table of a function. `NoMemory` for want of memory alone. (This project's own.)
pub fn put_regions(out: &mut Text, regions: &[Region]) -> Result<(), NoMemory>
    requires { length regions.now < 2 ^ 32 }
    ensures { OnOk result (out.new ≡ out.old ++ list region regions.now) }
{
    put_count(out, regions.len())?;
    for item in regions {
        put_region(out, item)?;
    }
    Ok(())
}

fn kind_number(kind: AssertionKind) -> u8
    ensures { result ≡ kind_code kind }
{
    match kind {
        AssertionKind::Pre => 1,
        AssertionKind::Post => 2,
        AssertionKind::Assert => 3,
    }
}

fn put_assertion(out: &mut Text, a: &Assertion) -> Result<(), NoMemory>
    ensures { OnOk result (out.new ≡ out.old ++ assertion a.now) }
{
    put_number(out, a.function)?;
    out.push(kind_number(a.kind))?;
    put_number(out, a.ordinal)?;
    put_number(out, a.file)?;
    put_number(out, a.comment)?;
    put_number(out, a.line)?;
    put_number(out, a.column)?;
    Ok(())
}

/// Writes the contract assertions of a file. `NoMemory` for want of memory alone. (This project's own.)
pub fn put_assertions(out: &mut Text, assertions: &[Assertion]) -> Result<(), NoMemory>
    requires { length assertions.now < 2 ^ 32 }
    ensures { OnOk result (out.new ≡ out.old ++ list assertion assertions.now) }
{
    put_count(out, assertions.len())?;
    for item in assertions {
        put_assertion(out, item)?;
    }
    Ok(())
}
