//! Words of the form HOST:PORT.

/// Whether a word is of the form HOST:PORT, as `127.0.0.1:7000`, `[::1]:7000` or `name:7000`, with a port up to 65,535. Whether there is such a host is not
/// looked up.
pub fn is_address(word: &str) -> bool {
    match word.rsplit_once(':') {
        Some((host, port)) => is_host(host) && is_port(port),
        None => false,
    }
}

/// Whether a word is a number of a port in digits alone.
fn is_port(word: &str) -> bool {
    word.bytes().all(|byte| byte.is_ascii_digit()) && word.parse::<u16>().is_ok()
}

/// Whether a word can be a host: there is something, and no blank in it.
fn is_host(word: &str) -> bool {
    !word.is_empty() && !word.bytes().any(|byte| byte <= b' ')
}
