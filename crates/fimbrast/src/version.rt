// The version. `make write-bindings` makes this file from bindings/rust/Cargo.toml.
ghost use Rattle.std.specs.Prelude.{◌≡◌};
ghost use Rattle.fimbrast.specs.Version.{version};

// The version as one number: 10,000 for each whole version, 100 for each minor one, and the patch.
pub fn fimbrast_version() -> u32
    ensures { result ≡ version }
{
    700
}

// The same under a name that has the version. A program refers to it, so that an archive of another version does not link.
pub fn fimbrast_version_0_7_0() -> u32
    ensures { result ≡ version }
{
    700
}
