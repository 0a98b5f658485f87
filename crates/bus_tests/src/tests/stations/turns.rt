//! Turns of one station, as lines of text.

/// Turns of a station with the address 1, in order, from its start at 0 on, with slot time 100, idle times 37 and 60,
/// reply delay 11, lag 0, target rotation time 10,000, GAP factor 10 and highest station address 5. Each line has the
/// moment of the turn, when the station was due, what it sends, the phase after it, and when it is due then; and the
/// marks that it reads: a begin `b` or an end `e` with its moment, the moment of its delivery, and the characters, with
/// `--` for a damaged one.
pub(crate) const TURNS: &str = "\
start\n\
800 800 dc0101 Claim 870\n\
870 870 dc0101 Use 940\n\
940 940 100201494c16 AwaitStatus 1106\n\
1017 1017 - AwaitStatus - b:1017:1017\n\
1083 1083 - Use 1120 e:1083:1083:100102202316\n\
1120 1120 dc0201 Checking 1253\n\
1253 1253 dc0201 Checking 1386\n\
1386 1386 dc0201 Checking 1519\n\
1519 1519 dc0101 Use 1589\n\
1589 1589 100301494d16 AwaitStatus 1755\n\
1755 1755 dc0101 Use 1825\n\
1825 1825 100401494e16 AwaitStatus 1991\n\
1991 1991 dc0101 Use 2061\n\
start\n\
100 100 - Listening - b:100:100\n\
133 133 - Listening 933 e:133:133:dc0302\n\
170 170 - Listening - b:170:170\n\
203 203 - Listening 1003 e:203:203:dc0203\n\
240 240 - Listening - b:240:240\n\
273 273 - Listening 1073 e:273:273:dc0302\n\
310 310 - Listening - b:310:310\n\
343 343 - Listening 1143 e:343:343:dc0203\n\
380 380 - Listening - b:380:380\n\
413 413 - Listening 1213 e:413:413:dc0302\n\
450 450 - Listening - b:450:450\n\
516 516 - Listening 527 e:516:516:100103494d16\n\
527 527 100301202416 Idle 1393\n\
630 630 - Idle - b:630:630\n\
663 663 - Use 700 e:663:663:dc0103\n\
700 700 dc0201 Checking 833\n\
773 773 - Idle - b:773:773\n\
806 806 - Idle 1606 e:806:806:dc03--\n\
903 903 - Idle - b:903:903\n\
936 936 - Idle 1736 e:936:936:dc0302\n\
973 973 - Idle - b:973:973\n\
1006 1006 - Idle 1806 e:1006:1006:dc0203\n\
1043 1043 - Idle - b:1043:1043\n\
1109 1109 - Idle 1120 e:1109:1109:100103494d16\n\
1114 1114 - Idle - b:1114:1114\n\
1147 1147 - Use 1184 e:1147:1147:dc0103\n\
1167 1184 - Use 1184\n\
1184 1184 dc0201 Checking 1317\n\
1317 1317 dc0201 Checking 1450\n\
1450 1450 - Idle - b:1450:1450\n\
1483 1483 - Idle 2283 e:1483:1483:--\n\
1520 1520 - Idle - b:1520:1520\n\
1553 1553 - Use 1590 e:1553:1553:dc0103\n\
1590 1590 dc0201 Checking 1723\n\
1600 1595 - Checking - b:1580:1595\n\
1613 1613 - Checking 1723 e:1613:1613:dc0302\n\
1723 1723 dc0201 Checking 1856\n\
1860 1856 - Idle - b:1857:1860\n\
1893 1893 - Idle 2693 e:1893:1893:dc0302\n\
1930 1930 - Idle - b:1930:1930\n\
1963 1963 - Idle 2763 e:1963:1963:dc0203\n\
2000 2000 - Idle - b:2000:2000\n\
2033 2033 - Use 2070 e:2033:2033:dc0103\n\
2070 2070 dc0201 Checking 2203\n\
2173 2110 - Idle 2939 b:2106:2110 e:2139:2150:--0302\n\
start\n\
900 800 - Listening - b:800:800 e:833:850:dc0302 b:870:870\n\
1000 903 - Listening 1703 e:903:903:dc0203\n\
1000 1000 - Listening - b:1000:1000\n\
1033 1033 - Listening 1833 e:1033:1033:dc0302\n\
1070 1070 - Listening - b:1070:1070\n\
1103 1103 - Listening 1903 e:1103:1103:dc0203\n\
1140 1140 - Listening - b:1140:1140\n\
1173 1173 - Listening 1973 e:1173:1173:dc0302\n\
1210 1210 - Listening - b:1210:1210\n\
1276 1276 - Listening 1287 e:1276:1276:100102494c16\n\
1287 1287 100201202316 Idle 2153\n\
1390 1390 - Idle - b:1390:1390\n\
1423 1423 - Idle 2223 e:1423:1423:dc0203\n\
1460 1460 - Idle - b:1460:1460\n\
1493 1493 - Idle 2293 e:1493:1493:dc0302\n\
1530 1530 - Idle - b:1530:1530\n\
1563 1563 - Listening 2363 e:1563:1563:dc0203\n\
1600 1600 - Listening - b:1600:1600\n\
1633 1633 - Listening 2433 e:1633:1633:dc0302\n\
1670 1670 - Listening - b:1670:1670\n\
1703 1703 - Listening 2503 e:1703:1703:dc0203\n\
2510 2503 dc0101 Claim 2580\n\
2580 2580 dc0101 Use 2650\n\
start\n\
100 100 - Listening - b:100:100\n\
133 133 - Listening 933 e:133:133:dc0201\n\
170 170 - Listening - b:170:170\n\
203 203 - Offline - e:203:203:dc0301\n\
5000 - - Offline -\n\
start\n\
817 800 100201303316 Idle - b:805:817 e:806:817:100102494c16 e:807:817:dc0101 b:808:817";
