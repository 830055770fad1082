// What each form allows: "form 0 source, 1 compiled".
ghost use Rattle.std.specs.Prelude.{◌≡◌, ◌+◌, ◌<◌};
ghost use Rattle.definitions.specs.Image.{largest_image, largest_level};
ghost use Rattle.image_words.specs.Limits.{most_locals};

pub const MOST_ARRAYS: u32 = 16;

pub const MOST_PROCEDURES: u32 = 32;

// The number of cells of an array, and of all arrays together.
pub const LONGEST_ARRAY: u32 = 256;

pub const MOST_CELLS: u32 = 1024;

pub fn largest_image(form: u32) -> usize
    ensures { result ≡ largest_image form }
{
    match form {
        0 => 4096,
        _ => 16384,
    }
}

pub fn largest_level(form: u32) -> u32
    ensures { result ≡ largest_level form }
{
    match form {
        0 => 19,
        _ => 22,
    }
}

pub fn most_parameters(form: u32) -> u32
    requires { form < 2 }
    ensures { result ≡ 8 + form }
{
    8 + form
}

pub fn most_locals(form: u32) -> u32
    ensures { result ≡ most_locals form }
{
    match form {
        0 => 64,
        _ => 246,
    }
}
