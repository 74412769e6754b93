// 1 by 1, wanted 2 1 0.
pub(crate) const NUMBER: [u8; 13] = [76, 70, 79, 0, 1, 0, 1, 0, 2, 0, 1, 0, 0];

// 1 by 1, kinds 1 2 3, masks 12 6 10.
pub(crate) const KIND: [u8; 16] = [76, 70, 79, 0, 1, 0, 2, 1, 2, 3, 0, 12, 0, 6, 0, 10];
