// A sheet that was checked.

ghost use Rattle.std.specs.Prelude.{◌≡◌};
ghost use Rattle.format.specs.Sizes.{Sound};
ghost use Rattle.sheet.specs.Sheet.{layout_of};

use crate::Layout;
use format::Format;

// A sheet that was checked, by a format: its bytes, and what the check told of them.
#[derive(Clone, Copy)]
pub struct Sheet<'a> {
    pub format: Format,
    pub bytes: &'a [u8],
    pub layout: Layout,
    ghost sound: { Sound format },
    ghost told: { layout ≡ layout_of format bytes.now },
}
