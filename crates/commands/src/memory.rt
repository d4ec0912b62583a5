//! How much memory a machine gets.
ghost use Rattle.std.specs.Prelude.{◌≡◌, ◌≤◌, ◌%◌, ◌*◌};
ghost use Rattle.options.specs.Memory.{IsOffered};

/// How many bytes of memory a machine gets: a size that it can have.
#[derive(Clone, Copy)]
pub struct MemorySize {
    /// Their number.
    pub bytes: u32,
    pub ghost whole: { bytes % 4096 ≡ 0 },
    pub ghost some: { 4096 ≤ bytes },
    pub ghost few: { bytes ≤ 16777216 },
}

impl MemorySize {
    /// This many KiB, as they can be asked for.
    pub fn of(kib: u32) -> MemorySize
        requires { IsOffered kib }
        ensures { result.bytes ≡ 1024 * kib }
    {
        MemorySize { bytes: kib * 1024 }
    }
}
