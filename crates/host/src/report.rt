// The bytes of a report.
ghost use Rattle.std.specs.Prelude.{◌≡◌};
ghost use Rattle.octets.specs.Codec.{written};
ghost use Rattle.octets.specs.Wrote.{Wrote};
ghost use Rattle.host.specs.Report as reports;

use outcome::Report;

// 1 for yes, 0 for no.
fn mark(b: bool) -> u64
    ensures { result ≡ reports.mark b }
{
    u64::from(b)
}

// Letters 2, length 2, class 1.
fn put_front(rest: &mut [u8], r: Report) -> usize
    ensures { Wrote (written reports.front_layout (reports.front_of r))
        rest.old rest.new result }
{
    let a = octets::put_number(rest, 2, r.letters);
    let b = a + octets::put_number(&mut rest[a..], 2, r.length as u64);
    b + octets::put_number(&mut rest[b..], 1, r.class as u64)
}

// Service 1, IV present 1, date present 1.
fn put_marks(rest: &mut [u8], r: Report) -> usize
    ensures { Wrote (written reports.marks_layout (reports.marks_of r))
        rest.old rest.new result }
{
    let a = octets::put_number(rest, 1, r.service);
    let b = a + octets::put_number(&mut rest[a..], 1, mark(r.vector));
    b + octets::put_number(&mut rest[b..], 1, mark(r.dated))
}

// IV 8, date 12, zero 4.
fn put_values(rest: &mut [u8], r: Report) -> usize
    ensures { Wrote (written reports.values_layout (reports.values_of r))
        rest.old rest.new result }
{
    let date = r.date;
    let a = octets::put_number(rest, 8, r.iv);
    let b = a + octets::copy(&mut rest[a..], &date.digits);
    b + octets::fill(&mut rest[b..], 4, 0)
}

// The whole, part after part.
fn put_whole(rest: &mut [u8], r: Report) -> usize
    ensures { Wrote (reports.report_bytes r) rest.old rest.new result }
{
    let a = put_front(rest, r);
    let b = a + put_marks(&mut rest[a..], r);
    b + put_values(&mut rest[b..], r)
}

// The whole report.
pub(crate) fn put_report(report: &mut [u8; 32], r: Report)
    ensures { report.new ≡ reports.report_bytes r }
{
    put_whole(report, r);
}
