ghost use Rattle.std.specs.Prelude.{◌≡◌, ◌++◌, decimal, IfOk, OnOk};
ghost use Rattle.std.specs.String.{string_bytes};
ghost use Rattle.demonstrating.specs.Text.{Puts, declaration_lines, state_lines, text};

use itoa::Buffer;
use rsml_base::NoMemory;
use std::alloc::Global;

/// Puts a piece at the end of a text.
#[tactic(auto, using(crate::proofs::Joined::piece_put))]
fn put(text: &mut String, piece: &str) -> Result<(), NoMemory>
    ensures { OnOk result (Puts (string_bytes text.old) (string_bytes text.new) (λ rest. piece.now ++ rest)) }
{
    text.push_str(piece)?;
    Ok(())
}

/// Puts a number at the end of a text, in decimal digits, between two pieces.
pub(crate) fn put_number(
    text: &mut String,
    before: &str,
    number: u32,
    after: &str,
) -> Result<(), NoMemory>
    ensures { OnOk result (
        Puts (string_bytes text.old) (string_bytes text.new) (λ rest. before.now ++ (decimal number ++ (after.now ++ rest)))) }
{
    let mut buffer = Buffer::new();
    put(text, before)?;
    put(text, buffer.format(number))?;
    put(text, after)?;
    Ok(())
}

fn put_declarations(text: &mut String, units: u32) -> Result<(), NoMemory>
    ensures { OnOk result (Puts (string_bytes text.old) (string_bytes text.new) (declaration_lines units)) }
{
    put(text, "specification Demo;\nrange Level 0 .. 999;\n")?;
    put_number(text, "input Depth[", units, "] : Level = 0;\n")?;
    put(text, "event Go;\nmacro Full {\n")?;
    put_number(
        text,
        "  every k of ",
        units,
        " : in Plant.Unit[k].On | T;\n}\n",
    )?;
    put(text, "macro High {\n")?;
    put_number(text, "  some k of ", units, " : Depth[k] >= 500 | T;\n}\n")?;
    put_number(text, "receive Load[", units, "] (Depth[this]) raise Go;\n")?;
    Ok(())
}

fn put_states(text: &mut String, units: u32) -> Result<(), NoMemory>
    ensures { OnOk result (Puts (string_bytes text.old) (string_bytes text.new) (state_lines units)) }
{
    put(text, "state Plant all {\n")?;
    put_number(text, "  array Unit[", units, "] one {\n")?;
    put(text, "    default Off;\n    state Off;\n    state On;\n")?;
    put(
        text,
        "    move Off -> On on Go when {\n      Depth[this] >= 500 | T;\n    };\n",
    )?;
    put(
        text,
        "    stay Off on Go when {\n      Depth[this] >= 500 | F;\n    };\n",
    )?;
    put(
        text,
        "    move On -> Off on Go when {\n      macro Full | T .;\n      macro High | . F;\n    };\n",
    )?;
    put(
        text,
        "    stay On on Go when {\n      macro Full | F;\n      macro High | T;\n    };\n  }\n}\n",
    )?;
    Ok(())
}

/// The text of a plant of so many units.
pub fn generate(alloc: Global, units: u32) -> Result<String, NoMemory>
    ensures { IfOk result (λ made. string_bytes made ≡ text units) }
{
    let mut text = String::new(alloc);
    put_declarations(&mut text, units)?;
    put_states(&mut text, units)?;
    Ok(text)
}
