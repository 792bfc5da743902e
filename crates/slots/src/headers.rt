// The headers that calls hand back are made here and nowhere else.
ghost use Rattle.std.specs.Prelude.{◌≡◌};
ghost use Rattle.rules.specs.Words.{rise};
ghost use Rattle.rules.specs.Headers.{fresh, one_less, rebuilt};

use rules::Header;

pub fn fresh() -> Header
    ensures { result ≡ fresh }
{
    Header { used: 1, live: 0 }
}

// Live grows by 1. It would wrap at the largest number; whoever calls shows that it is below.
pub fn one_more(header: Header) -> Header
    ensures { result ≡ record { used = header.used; live = rise header.live } }
{
    Header {
        live: header.live.wrapping_add(1),
        ..header
    }
}

// Used and live grow by 1, each as live does in one_more.
pub fn grown(header: Header) -> Header
    ensures { result ≡ record { used = rise header.used; live = rise header.live } }
{
    Header {
        used: header.used.wrapping_add(1),
        live: header.live.wrapping_add(1),
    }
}

// Live falls by 1.
pub fn one_less(header: Header) -> Header
    ensures { result ≡ one_less header }
{
    Header {
        live: header.live.saturating_sub(1),
        ..header
    }
}

// Used becomes n, live the odd count.
pub fn rebuilt(n: u32, odds: u32) -> Header
    ensures { result ≡ rebuilt n odds }
{
    Header {
        used: n,
        live: odds,
    }
}
