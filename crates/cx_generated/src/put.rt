ghost use Rattle.std.specs.Prelude.{◌≡◌, ◌++◌, OnOk};
ghost use Rattle.std.specs.Fmt.{decimal};
ghost use Rattle.cx_generated.specs.Generated.{unit_name, function_name};

use cx_outside::{NoMemory, Text};
use itoa::Buffer;

/// Adds a number in decimal digits.
pub fn put_number(out: &mut Text, n: u32) -> Result<(), NoMemory>
    ensures { OnOk result (out.new ≡ out.old ++ decimal n) }
{
    let mut buffer = Buffer::new();
    out.append(buffer.format(n).as_bytes())
}

/// Adds `mI.cpp`.
pub fn put_unit_name(out: &mut Text, unit: u32) -> Result<(), NoMemory>
    ensures { OnOk result (out.new ≡ out.old ++ unit_name unit) }
{
    out.append(b"m")?;
    put_number(out, unit)?;
    out.append(b".cpp")?;
    Ok(())
}

/// Adds `fI_J`.
pub fn put_function_name(out: &mut Text, unit: u32, function: u32) -> Result<(), NoMemory>
    ensures { OnOk result (out.new ≡ out.old ++ function_name unit function) }
{
    out.append(b"f")?;
    put_number(out, unit)?;
    out.append(b"_")?;
    put_number(out, function)?;
    Ok(())
}
