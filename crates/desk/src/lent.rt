// What is lent to the desk for every sheet alike.

// Where the figures come from: the works' own coefficient book, the published one, and the fugitive table, each of any content and size.
#[derive(Clone, Copy)]
pub struct Sources<'a> {
    pub own: &'a [u8],
    pub book: &'a [u8],
    pub fugitive: &'a [u8],
}
