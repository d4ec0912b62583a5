//! How far the statements of a text reach.

use statements::{Item, Statement, Width};

/// The address after a statement at an address, as far as addresses go.
pub(crate) fn end_of(statement: &Statement, address: u32) -> u32 {
    match statement {
        Statement::Nothing => address,
        Statement::Space(count) => address.saturating_add(*count),
        Statement::Align(power) => address.saturating_add(padding(*power, address)),
        Statement::Data { width, items } => address.saturating_add(size_of(
            *width,
            items.as_slice(),
        )),
        Statement::Two(_, _) | Statement::LoadAddress { .. } | Statement::Call { .. } =>
            address.saturating_add(8),
        _ => address.saturating_add(4),
    }
}

/// How many bytes an item of data has.
pub(crate) fn bytes_of(width: Width) -> u32 {
    match width {
        Width::Byte => 1,
        Width::Half => 2,
        Width::Word => 4,
    }
}

/// Whether a statement is code.
pub(crate) fn is_code(statement: &Statement) -> bool {
    !matches!(
        statement,
        Statement::Nothing | Statement::Space(_) | Statement::Align(_) | Statement::Data { .. }
    )
}

/// Whether a statement is data at an address that is no multiple of its size.
pub(crate) fn is_misaligned(statement: &Statement, address: u32) -> bool {
    match statement {
        Statement::Data { width, .. } => match width {
            Width::Byte => false,
            Width::Half => address % 2 != 0,
            Width::Word => address % 4 != 0,
        },
        _ => false,
    }
}

fn size_of(width: Width, items: &[Item]) -> u32 {
    match u32::try_from(items.len()) {
        Ok(count) => count.saturating_mul(bytes_of(width)),
        Err(_) => u32::MAX,
    }
}

// How far the next multiple of a power of 2 is.
fn padding(power: u32, address: u32) -> u32 {
    if power >= 32 {
        return 0;
    }
    let size = 1 << power;
    let over = address % size;
    if over == 0 { 0 } else { size - over }
}
