// The version of what crosses to C. It is part of the function's name, so that a program made for another version does not link.
ghost use Rattle.std.specs.Prelude.{◌≡◌};
ghost use Rattle.feel_lexer.specs.Numbers.{version};

// Ruled out, among others: another number than the name says.
#[unsafe(no_mangle)]
pub extern "C" fn feel_lexer_version_1() -> u32
    ensures { result ≡ version }
{
    1
}
