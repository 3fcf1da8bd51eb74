// The names of the built-in functions, for a host that tells calls of them from others.
ghost use Rattle.std.specs.Prelude.{◌≡◌};
ghost use Rattle.feel_lexer.specs.FunctionNames as spec;

// Whether the name is that of a built-in function: 1 or 0. Nothing is refused.
// Ruled out, among others: 1 for a name with a space behind it; 0 for `date and time`.
#[unsafe(no_mangle)]
pub extern "C" fn feel_is_built_in_function_name(name: &[u32]) -> u32
    ensures { result ≡ spec.feel_is_built_in_function_name name.now }
{
    u32::from(functions::functions::is_built_in_function_name(name))
}
