//! Splits that heal, and the answers.
use crate::script_devices::Said;

/// Scripts that heal a split, or are refused.
pub(crate) const SCRIPTS: &[Said] = &[
    // Both halves have the merge: the clash `db`, and `web` of one half.
    (
        "register a db 1.10 5 0 - exit\nregister b db 2.20 9 0 - exit\nregister b web 2.21 1 0 - notify-all\nheal 0\nshow a\nshow b\n",
        0,
        "yes\nyes\nyes\ndb first word 0\nexit 2.20\nhealed 2 names\ndb 1.10 5 0 exit\nweb 2.21 1 0 notify-all\nend\ndb 1.10 5 0 exit\nweb 2.21 1 0 notify-all\nend\n",
    ),
    // A healed cluster heals again.
    (
        "register a db 1.10 5 0 - exit\nregister b db 2.20 9 0 - exit\nheal 0\nheal 0\n",
        0,
        "yes\nyes\ndb first word 0\nexit 2.20\nhealed 1 names\nhealed 1 names\n",
    ),
    // Clashes are printed in the order of names, from the seed's word on, which wraps.
    (
        "register a c1 1.10 5 0 - exit\nregister b c1 2.20 9 0 - exit\nregister a a1 1.10 5 0 - exit\nregister b a1 2.20 9 0 - exit\nregister a b1 1.10 5 0 - exit\nregister b b1 2.20 9 0 - exit\nheal 0\n",
        0,
        "yes\nyes\nyes\nyes\nyes\nyes\na1 first word 0\nexit 2.20\nb1 second word 1\nexit 1.10\nc1 first word 2\nexit 2.20\nhealed 3 names\n",
    ),
    (
        "register a c1 1.10 5 0 - exit\nregister b c1 2.20 9 0 - exit\nregister a a1 1.10 5 0 - exit\nregister b a1 2.20 9 0 - exit\nregister a b1 1.10 5 0 - exit\nregister b b1 2.20 9 0 - exit\nheal 18446744073709551615\n",
        0,
        "yes\nyes\nyes\nyes\nyes\nyes\na1 second word 18446744073709551615\nexit 1.10\nb1 first word 0\nexit 2.20\nc1 second word 1\nexit 1.10\nhealed 3 names\n",
    ),
    // `notify-all` tells both.
    (
        "register a m 1.1 0 0 - notify-all\nregister b m 2.2 0 0 - notify-all\nheal 3\n",
        0,
        "yes\nyes\nm none word 3\nconflict m to 1.1 other 2.2\nconflict m to 2.2 other 1.1\nhealed 0 names\n",
    ),
    // Owners go while the exchange is open: the winner's name goes too, the loser's stays.
    (
        "register a db 1.10 5 0 - exit\nregister b db 2.20 9 0 - exit\nheal 0 0 0 gone a db\n",
        0,
        "yes\nyes\ndb first word 0\nexit 2.20\nwithdrew a db\nhealed 0 names\n",
    ),
    (
        "register a db 1.10 5 0 - exit\nregister b db 2.20 9 0 - exit\nheal 0 gone b db\n",
        0,
        "yes\nyes\ndb first word 0\nexit 2.20\nwithdrew b db\nhealed 1 names\n",
    ),
    // Where nothing clashes, each half has the other's name.
    (
        "register a x 1.1 0 0 - exit\nregister b y 2.1 0 0 - exit\nheal 5\nwhereis a y\nunregister a y\nwhereis a y\n",
        0,
        "yes\nyes\nhealed 2 names\n2.1\ngone\nundefined\n",
    ),
    // A withdrawal that is refused leaves both halves closed: each takes names.
    (
        "register a db 1.10 5 0 - exit\nregister b db 2.20 9 0 - exit\nheal 0 gone a x\nregister a web 1.10 5 0 - exit\nregister b web 2.20 9 0 - exit\nunregister a web\nunregister b web\n",
        2,
        "yes\nyes\nline 3: refused 31\nyes\nyes\ngone\ngone\n",
    ),
    // What was withdrawn before the refusal is gone, on its own half alone.
    (
        "register a db 1.10 5 0 - exit\nregister b db 2.20 9 0 - exit\nheal 0 gone a db gone a db\nshow a\nwhereis b db\nunregister a db\nregister a db 1.10 5 0 - exit\nregister b web 2.20 9 0 - exit\n",
        2,
        "yes\nyes\nline 3: refused 47\nend\n2.20\nline 6: refused 31\nyes\nyes\n",
    ),
    // Both halves withdraw, in the order of the line.
    (
        "register a x 1.1 0 0 - exit\nregister a z 1.2 0 0 - exit\nregister b y 2.1 0 0 - exit\nheal 0 gone b y gone a x\nshow a\nshow b\n",
        0,
        "yes\nyes\nyes\nwithdrew b y\nwithdrew a x\nhealed 1 names\nz 1.2 0 0 exit\nend\nz 1.2 0 0 exit\nend\n",
    ),
    // Nothing is withdrawn after a refusal.
    (
        "register a db 1.10 5 0 - exit\nregister b db 2.20 9 0 - exit\nregister b web 2.21 1 0 - exit\nheal 0 gone a db gone a x gone b web\nshow a\nshow b\n",
        2,
        "yes\nyes\nyes\nline 4: refused 31\nend\ndb 2.20 9 0 exit\nweb 2.21 1 0 exit\nend\n",
    ),
    // The next number heals after both.
    (
        "register a db 1.10 5 0 - exit\nregister b db 2.20 9 0 - exit\nheal 0 gone a x\nheal 0 gone b db gone b db\nheal 0\nshow b\n",
        2,
        "yes\nyes\nline 3: refused 31\nline 4: refused 47\nhealed 1 names\ndb 1.10 5 0 exit\nend\n",
    ),
];
