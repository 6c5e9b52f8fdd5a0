// The table of flags (RULES 7.5).

// What stands for no flag: the step is never accepted.
pub const NEVER: u8 = 255;

// A row's columns: steps 1 to 5, 6 clean, 6 dirty, 7 to 30.
pub(crate) const COLUMNS: usize = 31;

// A row for each flag, in the order of their numbers.
pub(crate) static NEXT: [[u8; COLUMNS]; 11] = [
    [
        255, // Unmapped, 1
        255, // Unmapped, 2
        255, // Unmapped, 3
        255, // Unmapped, 4
        255, // Unmapped, 5
        255, // Unmapped, 6 clean
        255, // Unmapped, 6 dirty
        255, // Unmapped, 7
        255, // Unmapped, 8
        255, // Unmapped, 9
        255, // Unmapped, 10
        2, // Unmapped, 11
        1, // Unmapped, 12
        255, // Unmapped, 13
        255, // Unmapped, 14
        255, // Unmapped, 15
        255, // Unmapped, 16
        255, // Unmapped, 17
        255, // Unmapped, 18
        0, // Unmapped, 19
        0, // Unmapped, 20
        255, // Unmapped, 21
        255, // Unmapped, 22
        255, // Unmapped, 23
        255, // Unmapped, 24
        255, // Unmapped, 25
        255, // Unmapped, 26
        255, // Unmapped, 27
        255, // Unmapped, 28
        255, // Unmapped, 29
        255, // Unmapped, 30
    ],
    [
        255, // Loading, 1
        255, // Loading, 2
        255, // Loading, 3
        255, // Loading, 4
        255, // Loading, 5
        255, // Loading, 6 clean
        255, // Loading, 6 dirty
        255, // Loading, 7
        255, // Loading, 8
        255, // Loading, 9
        255, // Loading, 10
        255, // Loading, 11
        255, // Loading, 12
        255, // Loading, 13
        255, // Loading, 14
        255, // Loading, 15
        3, // Loading, 16
        3, // Loading, 17
        255, // Loading, 18
        1, // Loading, 19
        1, // Loading, 20
        1, // Loading, 21
        255, // Loading, 22
        1, // Loading, 23
        255, // Loading, 24
        255, // Loading, 25
        255, // Loading, 26
        255, // Loading, 27
        255, // Loading, 28
        255, // Loading, 29
        255, // Loading, 30
    ],
    [
        255, // LoadingExcLock, 1
        255, // LoadingExcLock, 2
        255, // LoadingExcLock, 3
        255, // LoadingExcLock, 4
        255, // LoadingExcLock, 5
        255, // LoadingExcLock, 6 clean
        255, // LoadingExcLock, 6 dirty
        255, // LoadingExcLock, 7
        255, // LoadingExcLock, 8
        255, // LoadingExcLock, 9
        255, // LoadingExcLock, 10
        255, // LoadingExcLock, 11
        255, // LoadingExcLock, 12
        2, // LoadingExcLock, 13
        1, // LoadingExcLock, 14
        1, // LoadingExcLock, 15
        255, // LoadingExcLock, 16
        255, // LoadingExcLock, 17
        255, // LoadingExcLock, 18
        2, // LoadingExcLock, 19
        2, // LoadingExcLock, 20
        255, // LoadingExcLock, 21
        255, // LoadingExcLock, 22
        255, // LoadingExcLock, 23
        255, // LoadingExcLock, 24
        255, // LoadingExcLock, 25
        255, // LoadingExcLock, 26
        255, // LoadingExcLock, 27
        255, // LoadingExcLock, 28
        255, // LoadingExcLock, 29
        255, // LoadingExcLock, 30
    ],
    [
        5, // Available, 1
        255, // Available, 2
        4, // Available, 3
        4, // Available, 4
        255, // Available, 5
        255, // Available, 6 clean
        255, // Available, 6 dirty
        255, // Available, 7
        255, // Available, 8
        255, // Available, 9
        255, // Available, 10
        255, // Available, 11
        255, // Available, 12
        255, // Available, 13
        255, // Available, 14
        255, // Available, 15
        255, // Available, 16
        255, // Available, 17
        255, // Available, 18
        3, // Available, 19
        3, // Available, 20
        3, // Available, 21
        3, // Available, 22
        3, // Available, 23
        3, // Available, 24
        255, // Available, 25
        255, // Available, 26
        255, // Available, 27
        255, // Available, 28
        255, // Available, 29
        255, // Available, 30
    ],
    [
        255, // Claimed, 1
        255, // Claimed, 2
        255, // Claimed, 3
        255, // Claimed, 4
        8, // Claimed, 5
        255, // Claimed, 6 clean
        255, // Claimed, 6 dirty
        255, // Claimed, 7
        255, // Claimed, 8
        255, // Claimed, 9
        255, // Claimed, 10
        255, // Claimed, 11
        255, // Claimed, 12
        255, // Claimed, 13
        255, // Claimed, 14
        255, // Claimed, 15
        255, // Claimed, 16
        255, // Claimed, 17
        255, // Claimed, 18
        4, // Claimed, 19
        4, // Claimed, 20
        4, // Claimed, 21
        4, // Claimed, 22
        4, // Claimed, 23
        4, // Claimed, 24
        3, // Claimed, 25
        3, // Claimed, 26
        255, // Claimed, 27
        255, // Claimed, 28
        255, // Claimed, 29
        255, // Claimed, 30
    ],
    [
        255, // Writeback, 1
        3, // Writeback, 2
        6, // Writeback, 3
        6, // Writeback, 4
        255, // Writeback, 5
        255, // Writeback, 6 clean
        255, // Writeback, 6 dirty
        255, // Writeback, 7
        255, // Writeback, 8
        255, // Writeback, 9
        255, // Writeback, 10
        255, // Writeback, 11
        255, // Writeback, 12
        255, // Writeback, 13
        255, // Writeback, 14
        255, // Writeback, 15
        255, // Writeback, 16
        255, // Writeback, 17
        255, // Writeback, 18
        5, // Writeback, 19
        5, // Writeback, 20
        5, // Writeback, 21
        5, // Writeback, 22
        5, // Writeback, 23
        5, // Writeback, 24
        255, // Writeback, 25
        255, // Writeback, 26
        255, // Writeback, 27
        255, // Writeback, 28
        255, // Writeback, 29
        255, // Writeback, 30
    ],
    [
        255, // WritebackAndClaimed, 1
        4, // WritebackAndClaimed, 2
        255, // WritebackAndClaimed, 3
        255, // WritebackAndClaimed, 4
        7, // WritebackAndClaimed, 5
        255, // WritebackAndClaimed, 6 clean
        255, // WritebackAndClaimed, 6 dirty
        255, // WritebackAndClaimed, 7
        255, // WritebackAndClaimed, 8
        255, // WritebackAndClaimed, 9
        255, // WritebackAndClaimed, 10
        255, // WritebackAndClaimed, 11
        255, // WritebackAndClaimed, 12
        255, // WritebackAndClaimed, 13
        255, // WritebackAndClaimed, 14
        255, // WritebackAndClaimed, 15
        255, // WritebackAndClaimed, 16
        255, // WritebackAndClaimed, 17
        255, // WritebackAndClaimed, 18
        6, // WritebackAndClaimed, 19
        6, // WritebackAndClaimed, 20
        6, // WritebackAndClaimed, 21
        6, // WritebackAndClaimed, 22
        6, // WritebackAndClaimed, 23
        6, // WritebackAndClaimed, 24
        5, // WritebackAndClaimed, 25
        5, // WritebackAndClaimed, 26
        255, // WritebackAndClaimed, 27
        255, // WritebackAndClaimed, 28
        255, // WritebackAndClaimed, 29
        255, // WritebackAndClaimed, 30
    ],
    [
        255, // WritebackAndPendingExcLock, 1
        8, // WritebackAndPendingExcLock, 2
        255, // WritebackAndPendingExcLock, 3
        255, // WritebackAndPendingExcLock, 4
        255, // WritebackAndPendingExcLock, 5
        255, // WritebackAndPendingExcLock, 6 clean
        255, // WritebackAndPendingExcLock, 6 dirty
        255, // WritebackAndPendingExcLock, 7
        255, // WritebackAndPendingExcLock, 8
        255, // WritebackAndPendingExcLock, 9
        255, // WritebackAndPendingExcLock, 10
        255, // WritebackAndPendingExcLock, 11
        255, // WritebackAndPendingExcLock, 12
        255, // WritebackAndPendingExcLock, 13
        255, // WritebackAndPendingExcLock, 14
        255, // WritebackAndPendingExcLock, 15
        255, // WritebackAndPendingExcLock, 16
        255, // WritebackAndPendingExcLock, 17
        255, // WritebackAndPendingExcLock, 18
        7, // WritebackAndPendingExcLock, 19
        7, // WritebackAndPendingExcLock, 20
        7, // WritebackAndPendingExcLock, 21
        7, // WritebackAndPendingExcLock, 22
        255, // WritebackAndPendingExcLock, 23
        7, // WritebackAndPendingExcLock, 24
        255, // WritebackAndPendingExcLock, 25
        255, // WritebackAndPendingExcLock, 26
        6, // WritebackAndPendingExcLock, 27
        255, // WritebackAndPendingExcLock, 28
        255, // WritebackAndPendingExcLock, 29
        255, // WritebackAndPendingExcLock, 30
    ],
    [
        255, // PendingExcLock, 1
        255, // PendingExcLock, 2
        255, // PendingExcLock, 3
        255, // PendingExcLock, 4
        255, // PendingExcLock, 5
        9, // PendingExcLock, 6 clean
        10, // PendingExcLock, 6 dirty
        255, // PendingExcLock, 7
        255, // PendingExcLock, 8
        255, // PendingExcLock, 9
        255, // PendingExcLock, 10
        255, // PendingExcLock, 11
        255, // PendingExcLock, 12
        255, // PendingExcLock, 13
        255, // PendingExcLock, 14
        255, // PendingExcLock, 15
        255, // PendingExcLock, 16
        255, // PendingExcLock, 17
        255, // PendingExcLock, 18
        8, // PendingExcLock, 19
        8, // PendingExcLock, 20
        8, // PendingExcLock, 21
        8, // PendingExcLock, 22
        255, // PendingExcLock, 23
        8, // PendingExcLock, 24
        255, // PendingExcLock, 25
        255, // PendingExcLock, 26
        4, // PendingExcLock, 27
        255, // PendingExcLock, 28
        255, // PendingExcLock, 29
        255, // PendingExcLock, 30
    ],
    [
        255, // ExcLockClean, 1
        255, // ExcLockClean, 2
        255, // ExcLockClean, 3
        255, // ExcLockClean, 4
        255, // ExcLockClean, 5
        255, // ExcLockClean, 6 clean
        255, // ExcLockClean, 6 dirty
        9, // ExcLockClean, 7
        9, // ExcLockClean, 8
        3, // ExcLockClean, 9
        4, // ExcLockClean, 10
        255, // ExcLockClean, 11
        255, // ExcLockClean, 12
        255, // ExcLockClean, 13
        255, // ExcLockClean, 14
        255, // ExcLockClean, 15
        255, // ExcLockClean, 16
        255, // ExcLockClean, 17
        9, // ExcLockClean, 18
        9, // ExcLockClean, 19
        9, // ExcLockClean, 20
        9, // ExcLockClean, 21
        9, // ExcLockClean, 22
        255, // ExcLockClean, 23
        9, // ExcLockClean, 24
        255, // ExcLockClean, 25
        255, // ExcLockClean, 26
        255, // ExcLockClean, 27
        4, // ExcLockClean, 28
        3, // ExcLockClean, 29
        0, // ExcLockClean, 30
    ],
    [
        255, // ExcLockDirty, 1
        255, // ExcLockDirty, 2
        255, // ExcLockDirty, 3
        255, // ExcLockDirty, 4
        255, // ExcLockDirty, 5
        255, // ExcLockDirty, 6 clean
        255, // ExcLockDirty, 6 dirty
        10, // ExcLockDirty, 7
        10, // ExcLockDirty, 8
        3, // ExcLockDirty, 9
        4, // ExcLockDirty, 10
        255, // ExcLockDirty, 11
        255, // ExcLockDirty, 12
        255, // ExcLockDirty, 13
        255, // ExcLockDirty, 14
        255, // ExcLockDirty, 15
        255, // ExcLockDirty, 16
        255, // ExcLockDirty, 17
        10, // ExcLockDirty, 18
        10, // ExcLockDirty, 19
        10, // ExcLockDirty, 20
        10, // ExcLockDirty, 21
        10, // ExcLockDirty, 22
        255, // ExcLockDirty, 23
        10, // ExcLockDirty, 24
        255, // ExcLockDirty, 25
        255, // ExcLockDirty, 26
        255, // ExcLockDirty, 27
        4, // ExcLockDirty, 28
        3, // ExcLockDirty, 29
        0, // ExcLockDirty, 30
    ],
];
