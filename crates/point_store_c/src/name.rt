// Which library this is: its version, the requested changes that it has, what it is a port of, the commit of that, and the target.
ghost use Rattle.std.specs.Prelude.{◌≤◌, ◌≡◌, ◌++◌, length, drop};
ghost use Rattle.point_store_c.specs.Naming.{named, exported_name};

use terms::Refusal;

// One line of ASCII, without an end. The compiler keeps an array in pieces of 16 bytes: a text as long as whole pieces stands in the
// archive as it reads here, for `strings` to find (`make check` looks), so spaces fill one up that is not.
const NAME: [u8; 80] =
    *b"point store 0.10.1; requests: 1-8; port of krcf pointstore.rs 05b18fcda4; x86-64";

fn copy_text(text: &[u8], out: &mut [u8])
    requires { length text.now ≤ length out.old }
    ensures { out.new ≡ text.now ++ drop (length text.now) out.old }
{
    out[..text.len()].copy_from_slice(text);
}

#[tactic(auto, using(crate::specs::Naming::name_refused, crate::specs::Naming::name_given), unfolding(crate::specs::Naming::name_text))]
#[unsafe(no_mangle)]
pub extern "C" fn ps_name(out: &mut [u8], name_length: &mut u64) -> u64
    ensures { named result out.new name_length.new ≡ exported_name out.old name_length.old }
{
    if out.len() < NAME.len() {
        return u64::from(Refusal::Length);
    }
    copy_text(&NAME, out);
    *name_length = NAME.len() as u64;
    0
}
