// Lines about requests that were served, on standard error.
use crate::Exchange;
use std::io;
use std::net::SocketAddr;
use std::rt::HostRuntime;

/// Prints a line about a request: who sent it, its first line, and what it came to. No guarantee: of what
/// is printed the checker knows nothing.
pub(crate) fn log(
    rt: &HostRuntime,
    client: SocketAddr,
    line: &[u8],
    exchange: Exchange,
) -> io::Result<()> {
    let line = line.escape_ascii();
    match exchange {
        Exchange::Sent(code) => eprintln!(rt; "{client} \"{line}\" {code}"),
        Exchange::WriteFault(code) => eprintln!(rt; "{client} \"{line}\" {code} write failed"),
        Exchange::ReadFault => eprintln!(rt; "{client} \"{line}\" read failed"),
    }
}
