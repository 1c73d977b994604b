// Dates: whether the twelve characters of an EDK are one.
#![tactic(auto)]

ghost use Rattle.std.specs.Prelude.{◌≡◌, ◌+◌, ◌-◌, ◌<◌, length};
ghost use Rattle.dates.specs.Date.{leap, days_in, is_day, is_time, two, is_date};

// Whether a year has 29 February.
#[tactic(auto, unfolding(crate::specs::Date::leap))]
fn leap(year: u32) -> bool
    ensures { result ≡ leap year }
{
    year % 4 == 0 && year != 0
}

// How many days a month has.
#[tactic(auto, unfolding(crate::specs::Date::days_in))]
fn days_in(year: u32, month: u32) -> u32
    ensures { result ≡ days_in year month }
{
    match month {
        2 => if leap(year) { 29 } else { 28 },
        4 | 6 | 9 | 11 => 30,
        _ => 31,
    }
}

// Whether it is a day of the calendar.
#[tactic(auto, unfolding(crate::specs::Date::is_day))]
fn is_day(year: u32, month: u32, day: u32) -> bool
    ensures { result ≡ is_day year month day }
{
    (1..=12).contains(&month) && (1..=days_in(year, month)).contains(&day)
}

// Whether it is a time of the day.
#[tactic(auto, unfolding(crate::specs::Date::is_time))]
fn is_time(hours: u32, minutes: u32, seconds: u32) -> bool
    ensures { result ≡ is_time hours minutes seconds }
{
    hours <= 23 && minutes <= 59 && seconds <= 59
}

// The digit that a character is, '0' being 48; as in the definition, 0 below it.
fn digit(b: u8) -> u32
    ensures value { result ≡ b - 48 }
    ensures upper_bound { result < 256 }
{
    b.saturating_sub(b'0') as u32
}

// The two digits from place i on.
fn two(s: &[u8], i: usize) -> u32
    requires { i + 1 < length s.now }
    ensures { result ≡ two i s.now }
{
    digit(s[i]) * 10 + digit(s[i + 1])
}

// Whether a text is a date: 12 digits that are a day and a time.
#[tactic(auto, unfolding(crate::specs::Date::is_date))]
pub fn is_date(s: &[u8]) -> bool
    ensures { result ≡ is_date s.now }
{
    octets::is_run(s, 0, 12, 12)
        && is_day(two(s, 0), two(s, 2), two(s, 4))
        && is_time(two(s, 6), two(s, 8), two(s, 10))
}
