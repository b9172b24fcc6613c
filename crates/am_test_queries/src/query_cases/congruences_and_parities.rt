//! Small problems over congruences and parities.

pub static CASES: &str = "\
2 operation 1 (and x0 x0) domain congruence start M R depth 3 turns 5 conflicts 100000
rule M (udiv B C) (ite C C B) (sub A B) rule R 0 rule A f1 f0 rule B (eq B C) f1 (shl C A) rule C 1 f1 0 f0
alone +11/3 +33/3 -32/1
given +00/2 -31/1 -31/2 -33/1
fit 399 689439878 777 3525089486 found
sound 28 425967532 57 1755910092 holds
precise 561 2964972600 1001 391430123 better

3 operation 2 (smin 2 (ite x1 2 x0)) domain parity start P depth 2 turns 2 conflicts 100000
rule P (ashr A A) 3 rule A f1 3
alone +31/74 -33/4
given +12/23
fit 17 4062937244 52 390773544 found
sound 48 814626046 142 1372160769 fails
precise 70 325711202 181 619185006 best

3 operation 1 (or x0 x0) assume (slt 6 x0) domain congruence start M R depth 2 turns 6 conflicts 100000
rule M (sub A A) rule R f0 (ult A A) (neg B) rule A f0 f1 6 (lshr f0 7) rule B (neg A)
alone +32/2 +11/7 -32/0
given +33/3 +72/2 -33/6 -31/1
fit 250 1306253436 573 643587517 nothing
sound 49 3884999804 106 1505256324 holds
precise 370 1547676041 786 4235727707 best

2 operation 1 (neg (slt 0 x0)) assume (not x0) domain parity start P depth 1 turns 2 conflicts 100000
rule P (neg (neg 2)) f0 (or f0 (lshr f0 1))
alone -3/2
given -1/3 -1/1
fit 10 3792188401 72 2596087608 found
sound 14 3184309041 67 590062890 fails
precise 24 2296913546 148 283622928 better

2 operation 2 (sle (ashr 1 x1) x0) domain congruence start M R depth 1 turns 3 conflicts 100000
rule M 0 (ashr f1 2) (ult f0 f3) rule R f2 (add f2 f1) 0
alone +1133/33 -0031/0
given +3233/23 -3210/2 -0032/2
fit 29 2054143633 121 2489214607 nothing
sound 56 3727903695 109 2074002412 fails
precise 93 3218943489 235 62520082 best

3 operation 2 (slt (neg x1) x0) domain parity start P depth 2 turns 6 conflicts 100000
rule P 3 (eq A A) (umin A A) rule A f1 f0
alone +13/01 -22/6
given +12/25 +31/32 +11/22 -13/5
fit 68 1935445834 236 3646885309 nothing
sound 47 3795900483 145 717018039 fails
precise 128 3911659379 380 2831804345 best

2 operation 2 (ite x0 x1 x1) domain congruence start M R depth 1 turns 2 conflicts 100000
rule M 0 (ule f1 f3) rule R 0 (umax f3 (or f2 0)) f2
alone -1131/3
given -1030/3 -1030/2
fit 12 1650332491 78 953987581 nothing
sound 46 991313369 97 1933895308 fails
precise 64 1309140920 184 3530072906 best

2 operation 2 (umax x0 x1) domain parity start P depth 3 turns 6 conflicts 100000
rule P (slt A A) (or B A) (and A A) rule A (add A B) 3 f0 f1 rule B 1 f0 rule U f0 (not U)
alone +13/01 +12/21 -11/3 -22/2
given +22/31 -32/2 -33/2 -32/1
fit 228 715674022 336 3163418541 found
sound 30 358396764 81 3757767620 holds
precise 300 2683108401 464 2093952322 better

3 operation 1 (urem x0 0) domain congruence start M M depth 1 turns 2 conflicts 100000
rule M (xor f0 f1) f1 0
alone -10/0
given -32/4 -71/5
fit 31 3292957976 85 2122651608 found
sound 70 3507793076 127 2691812911 fails
precise 100 882773735 187 4093549526 best

2 operation 2 (xor x0 x1) domain parity start P depth 2 turns 4 conflicts 100000
rule P (or f0 (ashr f1 f0)) (smin A B) (or C B) rule A (not f0) rule B f0 (ashr f1 f0) rule C f0
alone +23/11 +31/02
given +13/22 +23/13 +13/21
fit 42 3049089795 140 2624557389 found
sound 27 3767552215 79 4128150230 holds
precise 91 13508909 238 2880964206 best

2 operation 1 (sub x0 3) domain congruence start M R depth 3 turns 2 conflicts 100000
rule M (ult f1 1) (lshr C C) (lshr B C) rule R 0 rule A f1 rule B 1 f1 rule C 1 (not A) (not B)
alone +32/2 -33/1
given -30/3 -31/3
fit 59 434998192 139 3217979868 found
sound 25 3849495162 59 3468382084 holds
precise 112 1181623757 241 2486603612 better

3 operation 3 (add 6 (ite x2 x1 x0)) domain parity start P depth 2 turns 2 conflicts 100000
rule P (udiv A A) (or f0 f1) rule A 5 f2
alone +311/720
given +133/033 +122/651
fit 103 2159110140 181 1483428118 found
sound 59 3521806850 181 2212968910 holds
precise 195 3555758486 373 3787758425 best";
