//! The architectures that code is compiled for.

/// A target's architecture.
#[derive(Clone, Copy)]
pub enum Architecture {
    X86_64,
    Aarch64,
    S390x,
    Riscv64,
    Pulley,
}
