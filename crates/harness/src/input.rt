// Standard input: letters, numbers of four bytes, and bytes behind their length.
use refusal::LOG_MOST;

// Why there is no log where one could start.
#[derive(Clone, Copy)]
pub enum Broken {
    // The input ends within the head or the log.
    Short,
    // The log is longer than a log may be.
    Long,
}

// The next bytes, which fill the buffer; none where the input ends before they do.
fn next_bytes<const N: usize>() -> Option<[u8; N]> {
    let mut b = [0u8; N];
    if io::read_full(0, &mut b) < N {
        return None;
    }
    Some(b)
}

// A letter where a command could start; none where the input ends.
pub fn next_letter() -> Option<u8> {
    let [b] = next_bytes::<1>()?;
    Some(b)
}

// A number of four bytes; none where the input ends within it.
pub fn next_field() -> Option<u32> {
    let b = next_bytes::<4>()?;
    Some(numbers::le32(&b, 0))
}

// The next n bytes, at the front of the buffer; none where it has no room for so many or the input
// ends within them.
pub fn fill(buf: &mut [u8], n: usize) -> Option<&[u8]> {
    let front = buf.get_mut(..n)?;
    if io::read_full(0, front) < n {
        return None;
    }
    Some(front)
}

// A length and so many bytes.
pub fn counted(buf: &mut [u8]) -> Option<&[u8]> {
    let n = next_field()?;
    fill(buf, n as usize)
}

// A head, of which the last four bytes are a length, and so many bytes; nothing where the input ends.
pub fn next_task<'a, const N: usize>(
    head: &mut [u8; N],
    log: &'a mut [u8],
) -> Result<Option<&'a [u8]>, Broken> {
    let read = io::read_full(0, head);
    if read == 0 {
        return Ok(None);
    }
    if read < N {
        return Err(Broken::Short);
    }
    let len = numbers::le32(head, N.saturating_sub(4)) as usize;
    if LOG_MOST < len {
        return Err(Broken::Long);
    }
    let log = fill(log, len).ok_or(Broken::Short)?;
    Ok(Some(log))
}

// A length and so many bytes; nothing where the input ends.
pub fn next_log(log: &mut [u8]) -> Result<Option<&[u8]>, Broken> {
    next_task(&mut [0u8; 4], log)
}
