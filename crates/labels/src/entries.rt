// An entry of a lent slice, or `past` beyond its end: as the definitions read a list.
ghost use Rattle.std.specs.Prelude.{◌≡◌, get_or};

pub fn entry<T: Copy>(xs: &[T], i: usize, past: T) -> T
    ensures { result ≡ get_or xs.now i past }
{
    xs.get(i).copied().unwrap_or(past)
}
