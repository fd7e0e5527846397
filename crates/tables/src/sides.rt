// The sides of a triangle, in turn.
ghost use Rattle.std.specs.Prelude.{◌≡◌, ◌<◌};
ghost use Rattle.rules.specs.Tables.{next, previous};

// The side after h in its triangle.
pub fn next(h: usize) -> usize
    requires { h < 4294967295 }
    ensures { result ≡ next h }
{
    if h % 3 == 2 { h - 2 } else { h + 1 }
}

// The side before h in its triangle.
pub fn previous(h: usize) -> usize
    requires { h < 4294967295 }
    ensures { result ≡ previous h }
{
    if h % 3 == 0 { h + 2 } else { h - 1 }
}
