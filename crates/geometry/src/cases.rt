/// Writes the match over a granule, a level or a table's keys inside a function.
///
/// - `case_table!(level LEFT; f::<G>(args))` calls `f::<G, LEFT>` for a number of levels left from 0 to 3.
/// - `case_table!(level LEFT; f::<G, _, T>(args))` calls `f::<G, LEFT, T>`.
/// - `case_table!(granule TG; f(args))` calls `f::<G>` for a granule of 2 ^ G bytes; `sysregs::Tg` has to be in scope.
/// - `case_table!(granule TG; f::<_, T>(args))` calls `f::<G, T>`.
/// - `case_table!(KEY; PATTERN => VALUE, ..; else VALUE)` is a table with a default.
#[macro_export]
macro_rules! case_table {
    (level $left:expr; $call:ident::<$g:tt>($($arg:expr),*)) => {
        match $left {
            0 => $call::<$g, 0>($($arg),*),
            1 => $call::<$g, 1>($($arg),*),
            2 => $call::<$g, 2>($($arg),*),
            _ => $call::<$g, 3>($($arg),*),
        }
    };
    (level $left:expr; $call:ident::<$g:tt, _, $t:ty>($($arg:expr),*)) => {
        match $left {
            0 => $call::<$g, 0, $t>($($arg),*),
            1 => $call::<$g, 1, $t>($($arg),*),
            2 => $call::<$g, 2, $t>($($arg),*),
            _ => $call::<$g, 3, $t>($($arg),*),
        }
    };
    (granule $tg:expr; $call:ident($($arg:expr),*)) => {
        match $tg {
            Tg::K4 => $call::<12>($($arg),*),
            Tg::K16 => $call::<14>($($arg),*),
            Tg::K64 => $call::<16>($($arg),*),
        }
    };
    (granule $tg:expr; $call:ident::<_, $t:ty>($($arg:expr),*)) => {
        match $tg {
            Tg::K4 => $call::<12, $t>($($arg),*),
            Tg::K16 => $call::<14, $t>($($arg),*),
            Tg::K64 => $call::<16, $t>($($arg),*),
        }
    };
    ($key:expr; $($pattern:pat => $value:expr),* ; else $default:expr) => {
        match $key { $($pattern => $value,)* _ => $default }
    };
}
