/// Where a file lies in a buffer: its name from `name` to `content`, its bytes from there to `end`.
#[derive(Clone, Copy)]
pub struct FileBounds {
    pub name: usize,
    pub content: usize,
    pub end: usize,
    pub ended: bool,
}
