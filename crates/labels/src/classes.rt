// The class of a reason code. The functions over labels take the table of classes as a parameter.
ghost use Rattle.std.specs.Prelude.{◌≡◌, ◌≤◌};
ghost use Rattle.labels.specs.Classes.{class_of};

// Document 01: 'codes 0 to 23'.
pub const LARGEST_CODE: usize = 23;

// The class of a code.
pub fn class_of(classes: &[u8; 24], code: usize) -> u8
    requires { code ≤ 23 }
    ensures { result ≡ class_of classes.now code }
{
    classes[code]
}
