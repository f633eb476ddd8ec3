//! Bytes of a memory as they are listed.
ghost use Rattle.std.specs.Prelude.{◌≡◌, ◌↔◌, ℕ, Contains, filter, nat_lt, IfOk};
ghost use Rattle.machine_spec.specs.StateText.{AreRising};

use std::alloc::AllocError;

/// Bytes by rising addresses, each once, where no two of one address differ. The error is want of memory.
pub fn bytes_in_order(mut found: Vec<(u32, u8)>) -> Result<Vec<(u32, u8)>, AllocError>
    requires one { (m : ℕ → ℕ) × ((x : ℕ × ℕ) → Contains found.items x → m x.0 ≡ x.1) }
    ensures rise { IfOk result (λ v. AreRising v.items) }
    ensures same { IfOk result (λ v. (x : ℕ × ℕ) → Contains found.items x ↔ Contains v.items x) }
{
    found.sort()?;
    found.dedup();
    Ok(found)
}

/// The bytes that are not 0.
pub fn not_zero(mut found: Vec<(u32, u8)>) -> Vec<(u32, u8)>
    ensures { result.items ≡ filter (λ x. nat_lt 0 x.1) found.items }
{
    found.retain(|byte| byte.1 > 0);
    found
}
