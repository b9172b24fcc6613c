//! Small problems over products of two domains.

pub static CASES: &str = "\
2 operation 2 (xor x1 x0) domain u-interval+known-bits start L H Z O depth 2 turns 6 conflicts 100000
rule L 0 rule H 3 rule Z 0 (or A B) rule O 0 (add B B) rule A f1 rule B f2 (smin f2 f4) 3
alone +13002302/33 +01003300/13 -23100120/0 -01200300/2
given -11200100/1 -22020320/1 -01202200/3
fit 74 459842096 311 1559761468 found
sound 115 756336993 205 4111818190 fails
precise 213 2329556022 541 2137584791 better

3 operation 2 (and x0 x1) domain u-interval+congruence start L H M R depth 1 turns 4 conflicts 100000
rule L 1 0 rule H 7 (smax f5 (add 0 f5)) rule M 0 f3 rule R 0
alone +55750000/50 +13310100/11 -01002510/7
given +00300300/00 +67764574/64 -36111400/5 -57110170/1
fit 48 1679776271 344 3139053927 nothing
sound 164 1817915679 313 584747636 holds
precise 181 1060923492 650 869830814 best

2 operation 1 (smax x0 x0) domain w-interval+congruence start L H M R depth 1 turns 3 conflicts 100000
rule L 0 f3 (ult (or f2 1) f2) rule H (lshr (lshr 2 f1) 2) rule M 0 rule R 0
alone +1311/1
given
fit 7 2110801972 7 2110801972 found
sound 60 2549532322 129 1540379555 fails
precise 63 3529130705 155 3494828453 better

2 operation 2 (mul (and x1 2) x0) assume x0 domain u-interval+known-bits start L H Z O depth 1 turns 4
conflicts 100000
rule L (ite f1 0 f4) rule H f4 (umax f5 f7) rule Z (sub f3 f0) (add f5 f0) rule O 0
alone +12011200/12
given +11212210/12 -12001321/3 -03100210/2 -23122302/1
fit 25 4189127451 287 712940283 nothing
sound 129 4091581604 232 2672528202 fails
precise 156 3048448519 499 1422457242 best

3 operation 2 (sle x0 x1) domain u-interval+congruence start L H M R depth 2 turns 4 conflicts 100000
rule L f6 (umax B B) rule H 7 rule M (ule B B) (ule A A) rule R 0 rule A f2 rule B f6 (ashr f6 4) f2
alone +35001571/31 +12111200/11 -55112332/7
given +33001271/31 +01100500/01 -01700110/4
fit 145 1898670620 525 3666035524 found
sound 171 709104683 319 1082942779 fails
precise 350 1517905418 915 3883200328 best

2 operation 1 (umax x0 x0) domain w-interval+congruence start L H M R depth 3 turns 5 conflicts 100000
rule L (lshr B C) 0 (lshr C B) rule H 3 rule M 0 rule R 0 rule A f3 rule B f3 f2 (add A C) (neg C)
rule C (add C B) f3 f2
alone +0330/0 -3333/0 -1131/0
given +0030/0 -3033/0 -1031/0
fit 273 3244716398 495 2673138959 found
sound 63 2723276519 137 3758882371 holds
precise 433 692227983 743 2883929908 best

2 operation 1 (urem 1 (ule 1 x0)) domain u-interval+known-bits start L H Z O depth 3 turns 3 conflicts 100000
rule L (eq (smax f1 f3) 2) 0 rule H (xor A B) rule Z 0 (and B B) (or A A) rule O 0 rule A f0 rule B 3 f3 (neg C)
rule C (neg B)
alone +0000/0 +2212/2 -1120/1
given +0020/0 -3300/1 -0300/2
fit 96 3811449890 344 1574954109 nothing
sound 75 2364181376 149 2728898124 holds
precise 192 3124995164 536 2577262921 best

3 operation 2 (not (lshr x1 x0)) assume (sle x0 x1) domain u-interval+congruence start L H M R depth 1 turns 4
conflicts 100000
rule L (sle f6 7) (add f0 4) (or f7 1) rule H 7 rule M 0 rule R 0
alone -47002332/0
given -15117777/2 -57310510/0 -23000270/4
fit 41 3930291850 250 281476721 found
sound 171 2168653737 313 2603621713 holds
precise 168 213790980 535 1233597465 better

2 operation 2 (ult x1 x0) domain w-interval+congruence start L H M R depth 2 turns 4 conflicts 100000
rule L f6 (ule B A) 0 rule H 3 rule M (ite A C B) rule R f1 0 rule A f6 3 rule B f5 f1 rule C 2
alone +03001111/01 -12000100/1 -32111331/0
given -01300000/3 -20000330/0
fit 73 1138835466 165 1070328075 found
sound 112 2609398970 209 814377131 fails
precise 196 3270709533 375 270876713 better

3 operation 1 (ite x0 (ule x0 4) x0) assume (not x0) domain u-interval+known-bits start L H Z O depth 2 turns 3
conflicts 100000
rule L 0 7 rule H (neg B) 7 rule Z (smax A B) (shl B A) rule O 0 f3 rule A f2 rule B (ite f2 f1 f1) f0 6
alone +3703/3 +4634/4 -3441/4
given +0150/0 -1701/5 -0350/0
fit 172 1977501505 488 1321425066 nothing
sound 105 1326812635 208 1662844907 holds
precise 344 3461384865 782 1221327125 best

2 operation 3 (udiv (eq x1 x2) x0) domain u-interval+congruence start L H M R depth 2 turns 7 conflicts 100000
rule L 0 (and B A) rule H f10 3 rule M 0 (ule A B) rule R 0 (umax f10 f11) rule A f6 f5 rule B f9 f6
alone +130023322210/122 -330022320030/0 -011013001231/0 -110001001300/2
given +231033332200/232 +231002302210/202 -120023103333/0
fit 90 2167474566 245 1654094802 found
sound 179 4144360170 317 5789675 fails
precise 249 179636798 521 2923806204 best

3 operation 1 (eq (shl x0 x0) x0) domain w-interval+congruence start L H M R depth 3 turns 5 conflicts 100000
rule L 0 (umin B B) rule H 7 rule M (neg D) (ashr B C) rule R 0 rule A f3 rule B (umin A C) rule C f1
rule D (ule 1 f2)
alone +7433/7 +0770/0
given +7777/7 +0570/0
fit 157 1071245219 366 2316497846 found
sound 105 3680650992 205 3495598836 holds
precise 348 4104741564 681 1569239959 best";
