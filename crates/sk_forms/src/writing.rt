//! Filters as texts that are read again.
ghost use Rattle.std.specs.Prelude.{◌≡◌, ◌++◌, IfOk, OnOk, string_bytes};
ghost use Rattle.sk_forms.specs.Writing.{array_line, array_text, base64_text, decimals_row, decimals_rows, decimals_text};

use base64::engine::general_purpose::STANDARD;
use sk_insn::Insn;
use sk_text::hex_word;
use std::alloc::{AllocError, Global};
use std::fmt::Write;

fn push_array_line(text: &mut String, insn: Insn) -> Result<(), AllocError>
    ensures line { OnOk result (string_bytes text.new ≡ string_bytes text.old ++ array_line insn) }
{
    let Insn { code, jt, jf, k } = insn;
    let k = hex_word(k);
    writeln!(text, "{{ 0x{code:x}, {jt}, {jf}, 0x{k} }},")
}

/// The rows of an array of C, as `tcpdump -dd` writes them. No head stands before them.
pub fn array_text(alloc: Global, insns: &[Insn]) -> Result<String, AllocError>
    ensures exact { IfOk result (λ text. string_bytes text ≡ array_text insns.now) }
{
    let mut text = String::new(alloc);
    for insn in insns {
        push_array_line(&mut text, *insn)?;
    }
    Ok(text)
}

fn push_decimals_row(text: &mut String, insn: Insn) -> Result<(), AllocError>
    ensures row { OnOk result (string_bytes text.new ≡ string_bytes text.old ++ decimals_row insn) }
{
    let Insn { code, jt, jf, k } = insn;
    write!(text, "{code} {jt} {jf} {k},")
}

fn push_decimals_rows(text: &mut String, insns: &[Insn]) -> Result<(), AllocError>
    ensures rows { OnOk result (string_bytes text.new ≡ string_bytes text.old ++ decimals_rows insns.now) }
{
    for insn in insns {
        push_decimals_row(text, *insn)?;
    }
    Ok(())
}

/// The line that bpf_asm of the kernel writes.
pub fn decimals_text(alloc: Global, insns: &[Insn]) -> Result<String, AllocError>
    ensures exact { IfOk result (λ text. string_bytes text ≡ decimals_text insns.now) }
{
    let mut text = String::new(alloc);
    write!(text, "{},", insns.len())?;
    push_decimals_rows(&mut text, insns)?;
    text.push_str("\n")?;
    Ok(text)
}

/// An image in base64, in one line.
pub fn base64_text(alloc: Global, image: &[u8]) -> Result<String, AllocError>
    ensures exact { IfOk result (λ text. string_bytes text ≡ base64_text image.now) }
{
    let mut text = STANDARD.encode(alloc, image)?;
    text.push_str("\n")?;
    Ok(text)
}
