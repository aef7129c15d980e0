// Which layout the archive has.
ghost use Rattle.std.specs.Prelude.{◌≡◌};

// The layout of the structs, and what each function takes and returns, is counted. Whoever declares them
// elsewhere names this function, so that an archive of another layout does not link. Where one of them
// changes, the number in the name and in the answer is one more.
#[unsafe(no_mangle)]
pub extern "C" fn degvuurel_layout_2() -> u8
    ensures { result ≡ 2 }
{
    2
}
