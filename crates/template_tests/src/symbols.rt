//! What names find.
use crate::files::{ARM, RISC_V};
use std::alloc::Global;
use std::test::Fail;
use symbol_table::{Found, read_symbols};

/// What a name finds in a file, in words.
fn found(alloc: Global, file: &str, name: &str) -> Result<String, Fail> {
    let bytes = hex::decode(alloc, file)?;
    let symbols = read_symbols(alloc, &bytes)?;
    let text = match symbols.find(name.as_bytes()) {
        Found::One { value, size } => format!(in alloc; "{value:#x} {size}")?,
        Found::Ambiguous => format!(in alloc; "ambiguous")?,
        Found::Missing(None) => format!(in alloc; "none")?,
        Found::Missing(Some(nearest)) => {
            let nearest = String::from_utf8_lossy(alloc, nearest)?;
            format!(in alloc; "none, nearest {nearest}")?
        }
    };
    Ok(text)
}

const RISC_V_NAMES: [(&str, &str); 10] = [
    ("rx_buffer", "0x20000 64"),
    ("parse", "0x10010 72"),
    ("__global_pointer$", "0x11880 0"),
    (".L1", "ambiguous"),
    ("twin", "0x10040 8"),
    ("away", "none"),
    ("part.c", "none, nearest parse"),
    ("rx_buf", "none, nearest rx_buffer"),
    ("rx_buffers", "none, nearest rx_buffer"),
    ("", "none"),
];

const ARM_NAMES: [(&str, &str); 2] = [("rx_buffer", "0x20000 64"), ("thumb", "0x8001 6")];

#[test]
fn names_find_symbols(rt: HostRuntime) -> Result<(), Fail> {
    for (name, wanted) in RISC_V_NAMES {
        assert_eq!(rt; found(rt.alloc(), RISC_V, name)?.as_str(), wanted);
    }
    for (name, wanted) in ARM_NAMES {
        assert_eq!(rt; found(rt.alloc(), ARM, name)?.as_str(), wanted);
    }
    Ok(())
}

/// The symbol by which an address of a file is told, and how far the address is behind it, in words.
fn label(alloc: Global, file: &str, address: u32) -> Result<String, Fail> {
    let bytes = hex::decode(alloc, file)?;
    let symbols = read_symbols(alloc, &bytes)?;
    let text = match symbols.label_at(address) {
        None => format!(in alloc; "none")?,
        Some(label) => {
            let name = String::from_utf8_lossy(alloc, label.name)?;
            let distance = address.wrapping_sub(label.value);
            format!(in alloc; "{name} {distance}")?
        }
    };
    Ok(text)
}

const RISC_V_LABELS: [(u32, &str); 6] = [
    (0x1_000f, "none"),
    (0x1_0010, "parse 0"),
    // behind two labels `.L1`
    (0x1_0034, "parse 36"),
    (0x1_0040, "twin 0"),
    (0x1_0044, "twin 4"),
    (0xffff_ffff, "rx_buffer 4294836223"),
];

#[test]
fn addresses_are_told_by_symbols(rt: HostRuntime) -> Result<(), Fail> {
    for (address, wanted) in RISC_V_LABELS {
        assert_eq!(rt; label(rt.alloc(), RISC_V, address)?.as_str(), wanted);
    }
    Ok(())
}
