// A port: what stands of a line between two fragments, in 529 bytes that a caller keeps: read and written. Assumes nothing.
#![tactic(auto)]

ghost use Rattle.std.specs.Prelude.{◌≡◌, ◌≤◌, length};
ghost use Rattle.gathering.specs.Lumps.{LINE};
ghost use Rattle.sizes.specs.Sizes.{PORT};
ghost use Rattle.port.specs.Port.{started_in, line_in, port_of};

pub use sizes;

// How many bytes stand of the line.
pub fn started(port: &[u8]) -> usize
    requires { length port.now ≡ PORT }
    ensures { result ≡ started_in port.now }
{
    usize::from(memory::key_at(port, 0))
}

// The bytes of the line, those that do not stand included.
pub fn line_in(port: &[u8]) -> [u8; 527]
    requires { length port.now ≡ PORT }
    ensures { result ≡ line_in port.now }
{
    let mut line = [0u8; 527];
    line.copy_from_slice(&port[2..]);
    line
}

// The port of a line of which n bytes stand.
pub fn keep(port: &mut [u8], n: usize, line: &[u8; 527])
    requires { (length port.old ≡ PORT) × (n ≤ LINE) }
    ensures { port.new ≡ port_of n line.now }
{
    memory::put_key(port, 0, n as u16);
    memory::copy(port, 2, line);
}
