// The library's function for C that tells which calculations are allowed. include/hrazvanut.h calls it.
#![tactic(auto)]

ghost use Rattle.std.specs.Prelude.{◌≡◌, not};
ghost use Rattle.spec_lists.specs.Select.{missing};
ghost use Rattle.spec_calc.specs.Reader.{tree_of};
ghost use Rattle.api_numbers.specs.Numbers.{yes};

#[unsafe(no_mangle)]
pub extern "C" fn hrazvanut_abi_allowed(text: &[u8]) -> u8
    ensures { result ≡ yes (not (missing (tree_of text.now))) }
{
    u8::from(calc::allowed(text))
}
